// Opening an empty store, and what a write leaves of some bytes.
ghost use Rattle.std.specs.Prelude.{◌≡◌, cond, ◌+◌, ◌≤◌, length};
ghost use Rattle.store_memtable.specs.Layout.{buffers_hold, empty_store, leave_words};
ghost use Rattle.store_memtable.specs.Rows.{bytes_left};

use crate::valid;
use store_memtable::{COUNT, LAST, MOST_BYTES, MOST_VERSIONS, USED, read};

// Writes the header of an empty store.
fn write_header(words: &mut [u64], last: u64, versions: u64, size: u64)
    requires { 5 ≤ length words.old }
    ensures { words.new ≡ leave_words (empty_store last versions size) words.old }
{
    words[COUNT] = 0;
    words[USED] = 0;
    words[LAST] = last;
    words[MOST_VERSIONS] = versions;
    words[MOST_BYTES] = size;
}

// Writes an empty store with this last sequence and these capacities, if the buffers hold them. It has no bytes, so those stay.
pub fn open(words: &mut [u64], bytes: &[u8], last: u64, versions: usize, size: usize) -> bool
    ensures value { result ≡ buffers_hold words.old bytes.now versions size }
    ensures words_after { words.new ≡ cond (buffers_hold words.old bytes.now versions size) (leave_words (empty_store last versions size) words.old) words.old }
{
    let fits = valid::buffers_hold(words, bytes, versions, size);
    if fits {
        write_header(words, last, read::wide(versions), read::wide(size));
    }
    fits
}

// What a key and a value leave of `left` bytes. It subtracts, so that no sum wraps.
pub fn take_bytes(left: usize, key_len: usize, value_len: usize) -> Option<usize>
    ensures { result ≡ bytes_left left (key_len + value_len) }
{
    left.checked_sub(key_len)?.checked_sub(value_len)
}
