// Do the parts of a lent member lie in their buffers? Total for every content of the table: it subtracts, so that no sum wraps.
ghost use Rattle.std.specs.Prelude.{◌≡◌, ◌+◌, ◌*◌, ◌≤◌, ◌<◌, leb, length, get_or};
ghost use Rattle.group_spec.specs.Members.{all_from, inside, value_inside, write_inside, check_inside, member_inside};

use crate::Member;
use crate::parts::Parts;
use store_memtable::read;

// Do `size` elements from `start` on lie within `len`?
fn fits(start: usize, size: usize, len: usize) -> bool
    ensures { result ≡ leb (start + size) len }
{
    start <= len && size <= len - start
}

// Lies the part in the data whose start and length stand at place `at` of the table?
fn key_inside(parts: Parts, at: usize) -> bool
    requires { at + 1 < length parts.table.now }
    ensures { result ≡ inside (get_or parts.entry.table.now at 0) (get_or parts.entry.table.now (at + 1) 0) parts.entry.«data».now }
{
    fits(
        read::word(parts.table, at),
        read::word(parts.table, at + 1),
        parts.data.len(),
    )
}

// Lies the value in the data that starts at `start` and has this value word? A tombstone has none.
fn value_inside(start: usize, word: usize, data: &[u8]) -> bool
    ensures { result ≡ value_inside start word «data».now }
{
    word == 0 || fits(start, word - 1, data.len())
}

// Lie the key and the value of write j in the data?
fn write_inside(parts: Parts, j: usize) -> bool
    requires { 4 * j + 4 ≤ length parts.table.now }
    ensures { result ≡ write_inside parts.entry.table.now parts.entry.«data».now j }
{
    let at = 4 * j;
    let start = read::word(parts.table, at + 2);
    key_inside(parts, at) && value_inside(start, read::word(parts.table, at + 3), parts.data)
}

// Lie the keys and values of `count` writes from write `first` on in the data?
fn writes_inside(parts: Parts, first: usize, count: usize) -> bool
    requires { 4 * (first + count) ≤ length parts.table.now }
    ensures { result ≡ all_from (write_inside parts.entry.table.now parts.entry.«data».now) first count }
{
    (first..first + count).all(|j| write_inside(parts, j))
}

// Lie `count` checked keys from check `first` on in the data?
fn checks_inside(parts: Parts, first: usize, count: usize) -> bool
    requires { 2 * (first + count) ≤ length parts.table.now }
    ensures { result ≡ all_from (check_inside parts.entry.table.now parts.entry.«data».now) first count }
{
    (first..first + count).all(|j| key_inside(parts, 2 * j))
}

// Lie the member's rows in the table, and its keys and values in the data?
pub fn member_inside(member: Member, parts: Parts) -> bool
    ensures { result ≡ member_inside parts.entry.table.now parts.entry.«data».now member }
{
    fits(member.first_write, member.writes, parts.table.len() / 4)
        && fits(member.first_check, member.checks, parts.table.len() / 2)
        && writes_inside(parts, member.first_write, member.writes)
        && checks_inside(parts, member.first_check, member.checks)
}
