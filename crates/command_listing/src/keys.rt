// The keys that match a pattern: KEYS, and what SCAN lists.
ghost use Rattle.std.specs.Prelude.{◌≡◌, ◌≤◌, length, take};
ghost use Rattle.base_writing.specs.Puts.{Puts};
ghost use Rattle.resp_spec.specs.Reply.{encode};
ghost use Rattle.store_memtable.specs.Versions.{table};
ghost use Rattle.store_memtable.specs.Reading.{versions_of};
ghost use Rattle.command_spec.specs.Command.{KEYS, answer_listing};
ghost use Rattle.command_spec.specs.Glob.{glob};
ghost use Rattle.command_listing.specs.Rest.{rest_of, matching, keys_reply, one_if, SeenFrom, MatchFrom};

use command_glob::Pattern;
use command_spec::pattern::Compared;
use resp_encode::reply;
use store_memtable::COUNT;
use store_memtable::store::Store;

// What a walk saw: how many keys match, and the place where it stopped.
#[derive(Clone, Copy)]
pub struct Seen {
    pub matched: u64,
    pub next: usize,
}

// 1 where the key `name` matches, else 0. Counting asks `compare` and writing asks `glob`: each has one caller in the registry, so that the
// compiler puts both into their loops.
fn one_if_matching(pattern: &Pattern, name: &[u8]) -> u64
    ensures { result ≡ one_if (glob pattern.now.bytes.now name.now) }
{
    match pattern.compare(name) {
        Compared::Matches => 1,
        _ => 0,
    }
}

// Counts the matching keys among the first `most` entries from `from` on.
pub fn count_matches(store: &Store, pattern: &Pattern, from: usize, most: u64) -> Seen
    ensures { SeenFrom store.now.words.now store.now.bytes.now pattern.now.bytes.now from most result.matched result.next }
{
    let mut i = from;
    let mut matched = 0;
    for _looked in 0..most {
        let Some(j) = store.next_live(i) else {
            break;
        };
        let name = store.key(j);
        matched += one_if_matching(pattern, name);
        i = j + 1;
    }
    Seen { matched, next: i }
}

// The first matching key from `from` on: its place and its name.
fn next_match<'a>(store: &Store<'a>, pattern: &Pattern, from: usize) -> Option<(usize, &'a [u8])>
    ensures { MatchFrom store.now.words.now store.now.bytes.now pattern.now.bytes.now from result }
{
    let mut i = from;
    while let Some(j) = store.next_live(i) {
        let name = store.key(j);
        if pattern.glob(name) {
            return Some((j, name));
        }
        i = j + 1;
    }
    None
}

// Writes the array of the first `count` matching keys from `from` on, up to one that does not fit.
pub fn put_matches(
    out: &mut [u8],
    store: &Store,
    pattern: &Pattern,
    from: usize,
    count: u64,
) -> Option<usize>
    requires count_in_bounds { count ≤ length (matching pattern.now.bytes.now (rest_of store.now from)) }
    ensures { Puts (encode (keys_reply (take count (matching pattern.now.bytes.now (rest_of store.now from))))) out.old result out.new }
{
    let mut put = reply::put_head(out, b'*', count);
    let mut i = from;
    for _written in 0..count {
        put?;
        let Some((j, name)) = next_match(store, pattern, i) else {
            return put;
        };
        put = resp_items::then_bulk(out, put, name);
        i = j + 1;
    }
    put
}

// KEYS.
pub fn put_keys(out: &mut [u8], store: &Store, pattern: &[u8]) -> Option<usize>
    ensures { Puts (encode (answer_listing (table (versions_of store.now)) (KEYS pattern.now))) out.old result out.new }
{
    let pattern = Pattern::new(pattern);
    let seen = count_matches(store, &pattern, 0, store.words[COUNT]);
    put_matches(out, store, &pattern, 0, seen.matched)
}
