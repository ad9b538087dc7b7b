// Writes of ascending keys committed in one pass over the store, from the last to the first: each row and byte moves at most once.
#![tactic(auto)]

ghost use Rattle.std.specs.Prelude.{◌≡◌, ◌+◌, ◌*◌, ◌≤◌, length};
ghost use Rattle.store_memtable.specs.Versions.{commit};
ghost use Rattle.store_memtable.specs.Layout.{count_word, used_word, last_word, most_bytes_word, store_in, leave_words, leave_bytes};
ghost use Rattle.store_memtable.specs.Rows.{Valid};
ghost use Rattle.store_memtable.specs.Merging.{Mergeable, front_after, words_after, bytes_after, leave_rows};
ghost use Rattle.store_memtable.specs.Table.{Ascending};
ghost use Rattle.group_spec.specs.Members.{list_from, write_at};
ghost use Rattle.group_spec.specs.Settling.{WriteIn, WritesIn, size_at, sizes_from, RoomFor};

use group_spec::parts::Parts;
use group_spec::sizes;
use store_commit::merge;
use store_memtable::{Front, LAST, read};

// The key and value bytes of `count` writes from write `first` on, for which the store has room.
fn writes_size(parts: &[u64], first: usize, count: usize, words: &[u64]) -> usize
    requires count_in_bounds { 4 * (first + count) ≤ length parts.now }
    requires in_bounds { 5 ≤ length words.now }
    requires count_bound { used_word words.now + sizes_from parts.now first count ≤ most_bytes_word words.now }
    ensures { result ≡ sizes_from parts.now first count }
{
    let free = read::free_bytes(words);
    match sizes::writes_left(parts, first, count, free) {
        Some(rest) => free - rest,
        None => 0,
    }
}

// Merges write j, the last of `by` writes, at `seq`. Returns what is left in front.
fn merge_write(
    parts: Parts,
    j: usize,
    by: usize,
    seq: u64,
    front: Front,
    words: &mut [u64],
    bytes: &mut [u8],
) -> Front
    requires write_in { WriteIn parts.table.now parts.«data».now j }
    requires mergeable { Mergeable words.old bytes.old by (size_at parts.table.now j) front }
    ensures value { result ≡ front_after (write_at parts.entry.table.now parts.entry.«data».now j) seq front words.old bytes.old }
    ensures words_after { words.new ≡ words_after (write_at parts.entry.table.now parts.entry.«data».now j) seq by front result words.old }
    ensures bytes_after { bytes.new ≡ bytes_after (write_at parts.entry.table.now parts.entry.«data».now j) front result bytes.old }
{
    let write = parts.write_at(j);
    merge::merge_one(
        words,
        bytes,
        write.name,
        write.value,
        write.live,
        by,
        seq,
        front,
    )
}

// Merges `count` writes from write `first` on, the last first; `top` is the sequence of the last. The header stays: these are slices, not a
// `StoreMut`, since the store is valid again only when it is renewed.
fn merge_writes(
    parts: Parts,
    first: usize,
    count: usize,
    top: u64,
    front: Front,
    words: &mut [u64],
    bytes: &mut [u8],
)
    requires writes_in { WritesIn parts.table.now parts.«data».now first count }
    requires valid { Valid words.old bytes.old }
    requires room_for { RoomFor words.old count (sizes_from parts.table.now first count) }
    requires ascending { Ascending (list_from (write_at parts.table.now parts.«data».now) first count) }
    requires top_value { top ≡ last_word words.old + count }
    requires rows_value { front.rows ≡ count_word words.old }
    requires used_value { front.used ≡ used_word words.old }
    requires gap_value { front.gap ≡ sizes_from parts.table.now first count }
    ensures words_after { words.new ≡ leave_rows (commit (list_from (write_at parts.entry.table.now parts.entry.«data».now) first count) (store_in words.old bytes.old)) words.old }
    ensures bytes_after { bytes.new ≡ leave_bytes (commit (list_from (write_at parts.entry.table.now parts.entry.«data».now) first count) (store_in words.old bytes.old)) bytes.old }
{
    let mut left = front;
    for j in (0..count).rev() {
        left = merge_write(
            parts,
            first + j,
            j + 1,
            top - read::wide(count - (j + 1)),
            left,
            words,
            bytes,
        );
    }
}

// Commits `count` writes from write `first` on, whose keys ascend.
pub fn commit_ascending(
    parts: Parts,
    first: usize,
    count: usize,
    words: &mut [u64],
    bytes: &mut [u8],
)
    requires writes_in { WritesIn parts.table.now parts.«data».now first count }
    requires valid { Valid words.old bytes.old }
    requires room_for { RoomFor words.old count (sizes_from parts.table.now first count) }
    requires ascending { Ascending (list_from (write_at parts.table.now parts.«data».now) first count) }
    ensures words_after { words.new ≡ leave_words (commit (list_from (write_at parts.entry.table.now parts.entry.«data».now) first count) (store_in words.old bytes.old)) words.old }
    ensures bytes_after { bytes.new ≡ leave_bytes (commit (list_from (write_at parts.entry.table.now parts.entry.«data».now) first count) (store_in words.old bytes.old)) bytes.old }
{
    let rows = read::word(words, 0);
    let used = read::word(words, 1);
    let top = words[LAST] + read::wide(count);
    let gap = writes_size(parts.table, first, count, words);
    let front = Front { rows, used, gap };
    merge_writes(parts, first, count, top, front, words, bytes);
    merge::renew_header(words, rows + count, used + gap, top);
}
