// The order of keys, byte by byte, and of versions: key ascending, then sequence descending (src/key.rs).
#![tactic(auto)]

ghost use Rattle.std.specs.Prelude.{◌≡◌, ◌+◌, ◌%◌, ◌≤◌, length, take, drop};
ghost use Rattle.base_key.specs.Blocks.{Alike, ByteIs, FourAt, EightAt, same_block};
ghost use Rattle.base_key.specs.Keys.{compare_keys, order_of_versions, same_key};

use std::cmp::Ordering;

// The eight bytes from i on as one number. `first_chunk` was tried: it takes eight to ten instructions more for each block.
fn eight(a: &[u8], i: usize) -> u64
    requires { i + 8 ≤ length a.now }
    ensures { EightAt a.now i result }
{
    u64::from_le_bytes([
        a[i],
        a[i + 1],
        a[i + 2],
        a[i + 3],
        a[i + 4],
        a[i + 5],
        a[i + 6],
        a[i + 7],
    ])
}

// Are the eight bytes from i on the same?
fn same_block(a: &[u8], b: &[u8], i: usize) -> bool
    requires i_in_bounds { i + 8 ≤ length a.now }
    requires i_in_bounds_2 { i + 8 ≤ length b.now }
    ensures { result ≡ same_block a.now b.now i }
{
    eight(a, i) == eight(b, i)
}

// Skips the blocks of eight bytes in which the keys are equal. It saves time only: `compare` is right from every place up to which they are alike.
fn skip(a: &[u8], b: &[u8]) -> usize
    ensures { Alike a.now b.now result }
{
    let blocks = a.len().min(b.len()) / 8;
    for i in 0..blocks {
        if !same_block(a, b, 8 * i) {
            return 8 * i;
        }
    }
    8 * blocks
}

// How the key `a` stands to the key `b`: lexicographic on bytes, a prefix before what it begins.
// The library's `a.cmp(b)` was tried: it is slower for keys of up to six bytes, and for equal keys.
pub fn compare(a: &[u8], b: &[u8]) -> Ordering
    ensures { result ≡ compare_keys a.now b.now }
{
    for i in skip(a, b)..a.len().min(b.len()) {
        if a[i] != b[i] {
            return a[i].cmp(&b[i]);
        }
    }
    a.len().cmp(&b.len())
}

// The same for versions: of one key, the version with the higher sequence comes first.
// `then` was tried: it takes six instructions more for equal keys of 20 bytes, since it is handed the order of the sequences.
pub fn compare_versions(a: &[u8], a_seq: u64, b: &[u8], b_seq: u64) -> Ordering
    ensures { result ≡ order_of_versions a.now a_seq b.now b_seq }
{
    match compare(a, b) {
        Ordering::Equal => b_seq.cmp(&a_seq),
        by_key => by_key,
    }
}

// Are the whole blocks of eight bytes at the end the same? From the last one on: neighbours in the order of keys differ late.
// A `for` over the number of blocks was tried: it takes four instructions more for each pair of keys.
fn same_blocks(a: &[u8], b: &[u8]) -> bool
    requires { length a.now ≡ length b.now }
    ensures { result ≡ same_key (drop (length a.now % 8) a.now) (drop (length a.now % 8) b.now) }
{
    let mut end = a.len();
    while let Some(start) = end.checked_sub(8) {
        if !same_block(a, b, start) {
            return false;
        }
        end = start;
    }
    true
}

// Are the first n bytes the same? From the last of them on.
fn same_front(a: &[u8], b: &[u8], n: usize) -> bool
    requires n_in_bounds { n ≤ length a.now }
    requires n_in_bounds_2 { n ≤ length b.now }
    ensures { result ≡ same_key (take n a.now) (take n b.now) }
{
    for i in (0..n).rev() {
        if a[i] != b[i] {
            return false;
        }
    }
    true
}

// Are the two one key? Their lengths are looked at first, then their ends.
// `a == b` was tried: it goes through the whole front that two neighbours share.
pub fn same(a: &[u8], b: &[u8]) -> bool
    ensures { result ≡ same_key a.now b.now }
{
    a.len() == b.len() && same_blocks(a, b) && same_front(a, b, a.len() % 8)
}
