// The size of a member's writes, by what it leaves of some bytes, and the take rule. It subtracts, so that no sum wraps.
ghost use Rattle.std.specs.Prelude.{◌≡◌, ◌+◌, ◌*◌, ◌≤◌, length};
ghost use Rattle.store_memtable.specs.Rows.{bytes_left};
ghost use Rattle.group_spec.specs.Settling.{as_room, room_after, size_at, sizes_from, taken_at};

use store_commit::open;
use store_memtable::read;

// What the key and the value of write j leave of `left` bytes.
fn write_left(parts: &[u64], j: usize, left: usize) -> Option<usize>
    requires { 4 * j + 4 ≤ length parts.now }
    ensures { result ≡ bytes_left left (size_at parts.now j) }
{
    let at = 4 * j;
    let size = read::value_len(read::word(parts, at + 3));
    open::take_bytes(left, read::word(parts, at + 1), size)
}

// What the keys and values of `count` writes from write `first` on leave of `left` bytes.
pub fn writes_left(parts: &[u64], first: usize, count: usize, left: usize) -> Option<usize>
    requires { 4 * (first + count) ≤ length parts.now }
    ensures { result ≡ bytes_left left (sizes_from parts.now first count) }
{
    let mut rest = left;
    for j in first..first + count {
        rest = write_left(parts, j, rest)?;
    }
    Some(rest)
}

// What the members up to member i, whose writes these are, leave of 1,048,576 bytes, where it is taken: the first is, whatever its size.
pub fn room_after(
    parts: &[u64],
    first: usize,
    count: usize,
    i: usize,
    room: Option<usize>,
) -> Option<usize>
    requires { 4 * (first + count) ≤ length parts.now }
    ensures { as_room result ≡ room_after i (as_room room) (sizes_from parts.now first count) }
{
    let left = if i == 0 { 1048576 } else { room? };
    writes_left(parts, first, count, left)
}

// Is member i taken, where this room is after it?
pub fn taken_at(i: usize, after: Option<usize>) -> bool
    ensures { result ≡ taken_at i (as_room after) }
{
    i == 0 || after.is_some()
}
