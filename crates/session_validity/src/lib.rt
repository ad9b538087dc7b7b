// Whether one session in its own lent words and bytes is valid (layout at the head of `specs/Sessions.antt` of `command_spec`), and all sixteen.
// No struct holds the two: nothing is known of them yet that it could keep.
#![tactic(auto)]

ghost use Rattle.std.specs.Prelude.{◌≡◌, ◌+◌, ◌-◌, ◌<◌, ◌≤◌, length, get_or};
ghost use Rattle.base_key.specs.Bytes.{part, total};
ghost use Rattle.base_key.specs.Keys.{key_below};
ghost use Rattle.command_spec.specs.Names.{row_of, may_queue};
ghost use Rattle.command_spec.specs.Sessions.{split_by, ascending, all_positive, all_queueable, none_above, watch_ok, queue_ok, session_ok, valid_sessions};
ghost use Rattle.command_spec.specs.Lent.{OneSession, KeysIn, QueueIn, queue_sizes_ok};

use session_memory::{
    ARGUMENTS, BYTES, COUNTS, IN_MULTI, KEY_LENGTHS, KEY_SEQUENCES, LENGTHS, MOST_ARGUMENT_BYTES,
    MOST_ARGUMENTS, MOST_KEY_BYTES, MOST_QUEUED, MOST_WATCHED, QUEUED, WATCHED, WORDS,
};
use std::cmp::Ordering;

pub const SESSIONS: usize = 16;

// Is the key from `start` to `end` below the one from `end` to `next`?
fn below(bytes: &[u8], start: usize, end: usize, next: usize) -> bool
    requires { (start ≤ end) × (end ≤ next) × (next ≤ length bytes.now) }
    ensures { result ≡ key_below (part start (end - start) bytes.now) (part end (next - end) bytes.now) }
{
    matches!(
        base_key::compare(&bytes[start..end], &bytes[end..next]),
        Ordering::Less
    )
}

// Are the watched keys ascending?
fn keys_ascending(words: &[u64], bytes: &[u8], count: usize) -> bool
    requires { KeysIn words.now bytes.now count }
    ensures { result ≡ ascending (split_by (part 4 count words.now) (part 0 2048 bytes.now)) }
{
    if count == 0 {
        return true;
    }
    let mut start = 0;
    let mut end = session_memory::word(words, KEY_LENGTHS);
    for i in 1..count {
        let next = end + session_memory::word(words, KEY_LENGTHS + i);
        if !below(bytes, start, end, next) {
            return false;
        }
        start = end;
        end = next;
    }
    true
}

// Is no sequence of the first `count` watched keys above the last?
fn sequences_within(words: &[u64], count: usize, last: u64) -> bool
    requires { 36 + count ≤ length words.now }
    ensures { result ≡ none_above last (part 36 count words.now) }
{
    words[KEY_SEQUENCES..KEY_SEQUENCES + count]
        .iter()
        .all(|sequence| *sequence <= last)
}

// Has each of the queued commands an argument, its name?
fn counts_positive(words: &[u64], count: usize) -> bool
    requires { 68 + count ≤ length words.now }
    ensures { result ≡ all_positive (part 68 count words.now) }
{
    words[COUNTS..COUNTS + count].iter().all(|size| *size != 0)
}

// May the command of `size` arguments be queued as it is? Its name is argument `first` and starts at `start` of the queue's bytes.
fn command_queueable(words: &[u64], bytes: &[u8], first: usize, start: usize, size: usize) -> bool
    requires { (132 + first < length words.now) × (2048 + start + get_or words.now (132 + first) 0 ≤ length bytes.now) × (1 ≤ size) }
    ensures { result ≡ may_queue (row_of (part (2048 + start) (get_or words.now (132 + first) 0) bytes.now)) (size - 1) }
{
    let from = ARGUMENTS + start;
    let to = from + session_memory::word(words, LENGTHS + first);
    let row = command_names::look_up(&bytes[from..to]);
    command_names::may_queue(row, size - 1)
}

// May all the queued commands be queued as they are?
fn commands_queueable(words: &[u64], bytes: &[u8], count: usize) -> bool
    requires { QueueIn words.now bytes.now count }
    ensures { result ≡ all_queueable (split_by (part 68 count words.now) (split_by (part 132 (total (part 68 count words.now)) words.now) (part 2048 8192 bytes.now))) }
{
    let mut first = 0;
    let mut start = 0;
    for i in 0..count {
        let size = session_memory::word(words, COUNTS + i);
        if !command_queueable(words, bytes, first, start, size) {
            return false;
        }
        start += session_memory::sum_within(words, LENGTHS + first, size, MOST_ARGUMENT_BYTES);
        first += size;
    }
    true
}

// The watch of a session: within its limits, keys ascending, and none of their sequences above the last.
// The limits return early, here and in `queue_fits`: with one `&&` chain each of three goals splits again into the tests in front of it.
fn watch_ok(words: &[u64], bytes: &[u8], last: u64) -> bool
    requires { OneSession words.now bytes.now }
    ensures { result ≡ watch_ok last words.now bytes.now }
{
    let watched = session_memory::word(words, WATCHED);
    if MOST_WATCHED < watched {
        return false;
    }
    if MOST_KEY_BYTES < session_memory::sum_within(words, KEY_LENGTHS, watched, MOST_KEY_BYTES) {
        return false;
    }
    keys_ascending(words, bytes, watched) && sequences_within(words, watched, last)
}

// The sizes of the queue of a session are within their limits.
fn queue_fits(words: &[u64]) -> bool
    requires { length words.now ≡ 644 }
    ensures { result ≡ queue_sizes_ok words.now }
{
    let queued = session_memory::word(words, QUEUED);
    if MOST_QUEUED < queued {
        return false;
    }
    let arguments = session_memory::sum_within(words, COUNTS, queued, MOST_ARGUMENTS);
    if MOST_ARGUMENTS < arguments {
        return false;
    }
    if MOST_ARGUMENT_BYTES
        < session_memory::sum_within(words, LENGTHS, arguments, MOST_ARGUMENT_BYTES)
    {
        return false;
    }
    counts_positive(words, queued)
}

// The queue of a session: within its limits, each command as it may be queued, and none outside MULTI.
fn queue_ok(words: &[u64], bytes: &[u8]) -> bool
    requires { OneSession words.now bytes.now }
    ensures { result ≡ queue_ok words.now bytes.now }
{
    if !queue_fits(words) {
        return false;
    }
    let queued = session_memory::word(words, QUEUED);
    commands_queueable(words, bytes, queued) && (words[IN_MULTI] != 0 || queued == 0)
}

// Is one session valid?
pub fn session_ok(words: &[u64], bytes: &[u8], last: u64) -> bool
    requires { OneSession words.now bytes.now }
    ensures { result ≡ session_ok last words.now bytes.now }
{
    watch_ok(words, bytes, last) && queue_ok(words, bytes)
}

// Are all sixteen sessions valid, and the buffers long enough for them?
pub fn sessions_ok(words: &[u64], bytes: &[u8], last: u64) -> bool
    ensures { result ≡ valid_sessions last words.now bytes.now }
{
    if words.len() < SESSIONS * WORDS {
        return false;
    }
    if bytes.len() < SESSIONS * BYTES {
        return false;
    }
    for i in 0..SESSIONS {
        let w = i * WORDS;
        let b = i * BYTES;
        if !session_ok(&words[w..w + WORDS], &bytes[b..b + BYTES], last) {
            return false;
        }
    }
    true
}
