// The watched keys of one session, ascending: lengths and sequences in tables of 32 words, bytes one behind the other.
#![tactic(auto)]

pub mod watch;

ghost use Rattle.std.specs.Prelude.{◌≡◌, ◌∷◌, [], ◌+◌, ◌≤◌, length, take};
ghost use Rattle.store_memtable.specs.Reading.{versions_of};
ghost use Rattle.base_key.specs.Bytes.{over_front};
ghost use Rattle.command_spec.specs.Session.{any_moved};
ghost use Rattle.command_spec.specs.Sessions.{session_from};
ghost use Rattle.command_spec.specs.Lent.{OneSession};
ghost use Rattle.command_spec.specs.Watch.{KeysAt, inserted_at, Spotted, WatchPut};

use session_memory::session::Session;
use session_memory::{COUNTS, KEY_LENGTHS, KEY_SEQUENCES, MOST_KEY_BYTES, WATCHED};
use std::cmp::Ordering;
use store_memtable::store::Store;

fn find_spot(lens: &[u64], text: &[u8], count: usize, name: &[u8]) -> Option<(usize, usize)>
    requires { KeysAt lens.now text.now count }
    ensures { Spotted lens.now text.now count name.now result }
{
    let mut start = 0;
    for i in 0..count {
        let end = start + session_memory::word(lens, i);
        match base_key::compare(name, &text[start..end]) {
            Ordering::Less => return Some((i, start)),
            Ordering::Equal => return None,
            Ordering::Greater => start = end,
        }
    }
    Some((count, start))
}

// Puts a word between the first `count`, at `at`.
fn insert_word(lens: &mut [u64], at: usize, count: usize, value: u64)
    requires { (at ≤ count) × (count + 1 ≤ length lens.old) }
    ensures { lens.new ≡ over_front (inserted_at at (value ∷ []) (take count lens.old)) lens.old }
{
    lens.copy_within(at..count, at + 1);
    lens[at] = value;
}

// Puts bytes between the first `used`, at `at`.
fn insert_bytes(text: &mut [u8], at: usize, used: usize, name: &[u8])
    requires { (at ≤ used) × (used + length name.now ≤ length text.old) }
    ensures { text.new ≡ over_front (inserted_at at name.now (take used text.old)) text.old }
{
    base_writing::shift_up(text, at, used, name.len());
    base_writing::put_at(text, at, name);
}

// Puts the `count` keys of working memory in their places.
pub fn keep(
    words: &mut [u64],
    bytes: &mut [u8],
    lens: &[u64],
    seqs: &[u64],
    text: &[u8],
    count: usize,
)
    requires one_session { OneSession words.old bytes.old }
    requires lens_len { (length lens.now ≡ 32) × (length seqs.now ≡ 32) × (length text.now ≡ 2048) }
    ensures { WatchPut lens.now seqs.now text.now count words.old words.new bytes.old bytes.new }
{
    words[KEY_LENGTHS..KEY_SEQUENCES].copy_from_slice(lens);
    words[KEY_SEQUENCES..COUNTS].copy_from_slice(seqs);
    bytes[0..MOST_KEY_BYTES].copy_from_slice(text);
    words[WATCHED] = count as u64;
}

// Has one of the watched keys a version above its sequence?
pub fn watched_moved(session: &Session, store: &Store) -> bool
    ensures { result ≡ any_moved (versions_of store.now) (session_from session.now.words.now session.now.bytes.now).watch }
{
    let count = session_memory::word(session.words, WATCHED);
    let mut start = 0;
    for i in 0..count {
        let end = start + session_memory::word(session.words, KEY_LENGTHS + i);
        let seq = session.words[KEY_SEQUENCES + i];
        if store.moved(&session.bytes[start..end], seq) {
            return true;
        }
        start = end;
    }
    false
}
