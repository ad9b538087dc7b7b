// Reading a store: the words and parts of a version, and the version that a read finds. These take slices, not a `Store`:
// the check of validity and the merge read words and bytes that are no valid store yet.
ghost use Rattle.std.specs.Prelude.{◌≡◌, ◌+◌, ◌-◌, ◌*◌, ◌≤◌, ◌<◌, length, get_or, eqb};
ghost use Rattle.base_key.specs.Keys.{is_less, same_key};
ghost use Rattle.store_memtable.specs.Versions.{order_of};
ghost use Rattle.store_memtable.specs.Layout.{most_bytes_word, seq_word, used_word, value_part, value_word, version_at, versions_from};
ghost use Rattle.store_memtable.specs.Rows.{RowIn, order_with, place_of};
ghost use Rattle.store_memtable.specs.Merging.{FrontIn};

use crate::{MOST_BYTES, USED, search};
use std::cmp::Ordering;

// The word at `at` as an index.
pub fn word(words: &[u64], at: usize) -> usize
    requires { at < length words.now }
    ensures { result ≡ get_or words.now at 0 }
{
    words[at] as usize
}

// The length that a value word says. A bare `saturating_sub(1)` at its places would not say why one goes.
pub fn value_len(word: usize) -> usize
    ensures { result ≡ word - 1 }
{
    word.saturating_sub(1)
}

// The bytes that are free.
pub fn free_bytes(words: &[u64]) -> usize
    requires in_bounds { 5 ≤ length words.now }
    requires within { used_word words.now ≤ most_bytes_word words.now }
    ensures { result ≡ most_bytes_word words.now - used_word words.now }
{
    word(words, MOST_BYTES) - word(words, USED)
}

// The bytes of version i's key. `RowIn` is about the place that is given, another at each call: no struct keeps it.
pub fn key_of<'a, 'b>(words: &'a [u64], bytes: &'b [u8], i: usize) -> &'b [u8]
    requires { RowIn words.now bytes.now i }
    ensures { result.now ≡ (version_at words.now bytes.now i).key }
{
    let row = 5 + 4 * i;
    let start = word(words, row);
    let end = start + word(words, row + 1);
    &bytes[start..end]
}

// The bytes of version i's value: none of a tombstone.
pub fn value_of<'a, 'b>(words: &'a [u64], bytes: &'b [u8], i: usize) -> &'b [u8]
    requires { RowIn words.now bytes.now i }
    ensures { result.now ≡ value_part words.now bytes.now i }
{
    let row = 5 + 4 * i;
    let start = word(words, row) + word(words, row + 1);
    let end = start + value_len(word(words, row + 2));
    &bytes[start..end]
}

// The sequence of version i.
pub fn seq_of(words: &[u64], i: usize) -> u64
    requires { 5 + 4 * i + 4 ≤ length words.now }
    ensures { result ≡ seq_word words.now i }
{
    let row = 5 + 4 * i;
    words[row + 3]
}

// Is version i a tombstone?
pub fn is_tombstone(words: &[u64], i: usize) -> bool
    requires { 5 + 4 * i + 4 ≤ length words.now }
    ensures { result ≡ eqb (value_word words.now i) 0 }
{
    let row = 5 + 4 * i;
    words[row + 2] == 0
}

// How version i stands to version j.
pub fn order_of(words: &[u64], bytes: &[u8], i: usize, j: usize) -> Ordering
    requires row_in { RowIn words.now bytes.now i }
    requires row_in_2 { RowIn words.now bytes.now j }
    ensures { result ≡ order_of (version_at words.now bytes.now i) (version_at words.now bytes.now j) }
{
    base_key::compare_versions(
        key_of(words, bytes, i),
        seq_of(words, i),
        key_of(words, bytes, j),
        seq_of(words, j),
    )
}

// Does version i come before `name` at `seq`?
fn comes_before(words: &[u64], bytes: &[u8], i: usize, name: &[u8], seq: u64) -> bool
    requires { RowIn words.now bytes.now i }
    ensures { result ≡ is_less (order_with name.now seq (version_at words.now bytes.now i)) }
{
    let order = base_key::compare_versions(key_of(words, bytes, i), seq_of(words, i), name, seq);
    matches!(order, Ordering::Less)
}

// How many of the first `rows` versions come before `name` at `seq`, by halves.
pub fn place_in(words: &[u64], bytes: &[u8], rows: usize, name: &[u8], seq: u64) -> usize
    requires { FrontIn words.now bytes.now rows }
    ensures { result ≡ place_of name.now seq (versions_from words.now bytes.now 0 rows) }
{
    search::partition_point(rows, |i| comes_before(words, bytes, i, name, seq))
}

// Is version i one of `name`?
pub fn is_of(words: &[u64], bytes: &[u8], i: usize, name: &[u8]) -> bool
    requires { RowIn words.now bytes.now i }
    ensures { result ≡ same_key (version_at words.now bytes.now i).key name.now }
{
    base_key::same(key_of(words, bytes, i), name)
}

// An index as a word. An index has 64 bits here: `u64::try_from` would answer an error that never comes.
pub fn wide(x: usize) -> u64
    ensures { result ≡ x }
{
    x as u64
}
