// Is a lent store valid by the layout? Total for every content of the words and bytes.
ghost use Rattle.std.specs.Prelude.{◌≡◌, ◌+◌, ◌*◌, ◌≤◌, length};
ghost use Rattle.store_memtable.specs.Versions.{sorted};
ghost use Rattle.store_memtable.specs.Layout.{count_word, used_word, buffers_hold, header_ok, chain_ok, valid_store};
ghost use Rattle.store_memtable.specs.Rows.{Readable, row_end, versions_in};

use crate::{COUNT, LAST, MOST_BYTES, MOST_VERSIONS, USED, read};
use std::cmp::Ordering;

// The buffers hold so many versions and bytes.
pub fn buffers_hold(words: &[u64], bytes: &[u8], versions: usize, size: usize) -> bool
    ensures { result ≡ buffers_hold words.now bytes.now versions size }
{
    5 <= words.len() && versions <= (words.len() - 5) / 4 && size <= bytes.len()
}

// The buffers hold the capacities, and the capacities the counts.
fn header_ok(words: &[u64], bytes: &[u8]) -> bool
    ensures { result ≡ header_ok words.now bytes.now }
{
    5 <= words.len()
        && buffers_hold(words, bytes, read::word(words, 3), read::word(words, 4))
        && words[COUNT] <= words[MOST_VERSIONS]
        && words[USED] <= words[MOST_BYTES]
}

// The end of version i, if it starts at `pos` and lies within the bytes used. It subtracts from the bytes used, so that no sum wraps.
fn row_end(words: &[u64], i: usize, pos: usize) -> Option<usize>
    requires i_in_bounds { 5 + 4 * i + 4 ≤ length words.now }
    requires pos_bound { pos ≤ used_word words.now }
    ensures { result ≡ row_end words.now i pos }
{
    let row = 5 + 4 * i;
    if read::word(words, row) != pos {
        return None;
    }
    if words[LAST] < words[row + 3] {
        return None;
    }
    let used = read::word(words, 1);
    let behind_key = (used - pos).checked_sub(read::word(words, row + 1))?;
    let rest = behind_key.checked_sub(read::value_len(read::word(words, row + 2)))?;
    Some(used - rest)
}

// The versions lie one behind the other, from 0 up to the bytes used.
fn chain_ok(words: &[u64]) -> bool
    requires { 5 + 4 * count_word words.now ≤ length words.now }
    ensures { result ≡ chain_ok words.now 0 (count_word words.now) 0 }
{
    let mut pos = 0;
    for i in 0..read::word(words, 0) {
        let Some(end) = row_end(words, i, pos) else {
            return false;
        };
        pos = end;
    }
    pos == read::word(words, 1)
}

// The versions are strictly ascending.
fn sorted_ok(words: &[u64], bytes: &[u8]) -> bool
    requires { Readable words.now bytes.now }
    ensures { result ≡ sorted (versions_in words.now bytes.now) }
{
    (1..read::word(words, 0)).all(|next| matches!(
        read::order_of(words, bytes, next - 1, next),
        Ordering::Less
    ))
}

// The lent store is valid by the layout.
pub fn validate(words: &[u64], bytes: &[u8]) -> bool
    ensures { result ≡ valid_store words.now bytes.now }
{
    header_ok(words, bytes) && chain_ok(words) && sorted_ok(words, bytes)
}
