// The verdict of one taken member, and its effect: an accepted member's writes are committed at once, in order.
#![tactic(auto)]

ghost use Rattle.std.specs.Prelude.{◌≡◌, true, ◌+◌, ◌*◌, ◌^◌, ◌≤◌, ◌<◌, ltb, length, set};
ghost use Rattle.store_memtable.specs.Versions.{commit_one, commit};
ghost use Rattle.store_memtable.specs.Layout.{count_word, used_word, most_versions_word, most_bytes_word};
ghost use Rattle.store_memtable.specs.Rows.{room_in};
ghost use Rattle.store_commit.specs.Leaving.{Leaves, store_of};
ghost use Rattle.group_spec.specs.declared.Verdict.TheVariants.{Accepted};
ghost use Rattle.group_spec.specs.Group.{store_after, verdict_byte};
ghost use Rattle.group_spec.specs.Members.{list_from, write_at, member_inside, pending_of};
ghost use Rattle.group_spec.specs.Settling.{WriteIn, WritesIn, size_at, sizes_from, RoomFor, judge_since, as_room, room_after, taken_at, step_verdict};

use group_spec::parts::Parts;
use group_spec::{Member, Verdict, conflict, sizes};
use store_commit::lent::StoreMut;
use store_memtable::store::Store;
use store_memtable::{LAST, read};

// Commits write j.
fn commit_write(parts: Parts, j: usize, store: &mut StoreMut)
    requires write_in { WriteIn parts.table.now parts.«data».now j }
    requires room_for { RoomFor store.old.words.now 1 (size_at parts.table.now j) }
    ensures { Leaves (commit_one (write_at parts.entry.table.now parts.entry.«data».now j) (store_of store.old)) store.old store.new }
{
    let write = parts.write_at(j);
    store.commit_one(write.name, write.value, write.live);
}

// Commits `count` writes from write `first` on, in order. `WritesIn` and `RoomFor` are about the writes that are given, others at each call:
// no struct keeps them.
pub fn commit_writes(parts: Parts, first: usize, count: usize, store: &mut StoreMut)
    requires writes_in { WritesIn parts.table.now parts.«data».now first count }
    requires room_for { RoomFor store.old.words.now count (sizes_from parts.table.now first count) }
    ensures { Leaves (commit (list_from (write_at parts.entry.table.now parts.entry.«data».now) first count) (store_of store.old)) store.old store.new }
{
    for j in first..first + count {
        commit_write(parts, j, store);
    }
}

// Is there room for `count` writes from write `first` on?
pub fn has_room(parts: &[u64], first: usize, count: usize, words: &[u64]) -> bool
    requires count_in_bounds { 4 * (first + count) ≤ length parts.now }
    requires in_bounds { 5 ≤ length words.now }
    requires words_bound { count_word words.now ≤ most_versions_word words.now }
    requires words_bound_2 { used_word words.now ≤ most_bytes_word words.now }
    ensures { result ≡ room_in words.now count (sizes_from parts.now first count) }
{
    let free = read::free_bytes(words);
    count <= read::word(words, 3) - read::word(words, 0)
        && sizes::writes_left(parts, first, count, free).is_some()
}

// Are there sequences for `count` writes after `last`?
pub fn has_sequences(last: u64, count: usize) -> bool
    ensures { result ≡ ltb (last + count) (2 ^ 64) }
{
    last.checked_add(read::wide(count)).is_some()
}

// The verdict of a taken member; `began` is the last sequence when the group began. Conflict comes before 6 and 7.
fn judge(member: Member, began: u64, parts: Parts, store: &StoreMut) -> Verdict
    requires { member_inside parts.table.now parts.«data».now member ≡ true }
    ensures value { result ≡ judge_since began (store_of store.now) (pending_of parts.entry.table.now parts.entry.«data».now member) }
    ensures room_for { result ≡ Accepted → RoomFor store.now.words.now member.writes (sizes_from parts.entry.table.now member.first_write member.writes) }
{
    let lent = Store {
        words: store.words,
        bytes: store.bytes,
    };
    if conflict::moved_since(member, began, parts, &lent) {
        return Verdict::Conflict;
    }
    if !has_room(parts.table, member.first_write, member.writes, lent.words) {
        return Verdict::NoRoom;
    }
    if !has_sequences(lent.words[LAST], member.writes) {
        return Verdict::NoSequence;
    }
    Verdict::Accepted
}

// Settles a taken member: an accepted one's writes are committed.
pub fn settle_member(member: Member, began: u64, parts: Parts, store: &mut StoreMut) -> Verdict
    requires { member_inside parts.table.now parts.«data».now member ≡ true }
    ensures value { result ≡ judge_since began (store_of store.old) (pending_of parts.entry.table.now parts.entry.«data».now member) }
    ensures left { Leaves (store_after result (pending_of parts.entry.table.now parts.entry.«data».now member).writes (store_of store.old)) store.old store.new }
{
    let verdict = judge(member, began, parts, store);
    if matches!(verdict, Verdict::Accepted) {
        commit_writes(parts, member.first_write, member.writes, store);
    }
    verdict
}

// Settles member i of a group, or leaves it untaken, and writes its verdict byte. Returns the room after it.
pub fn settle_next(
    member: Member,
    i: usize,
    began: u64,
    room: Option<usize>,
    parts: Parts,
    store: &mut StoreMut,
    verdicts: &mut [u8],
) -> Option<usize>
    requires member_value { member_inside parts.table.now parts.«data».now member ≡ true }
    requires i_in_bounds { i < length verdicts.old }
    ensures value { as_room result ≡ room_after i (as_room room) (sizes_from parts.entry.table.now member.first_write member.writes) }
    ensures verdicts_after { verdicts.new ≡ set verdicts.old i (verdict_byte (step_verdict (taken_at i (as_room result)) began (store_of store.old) (pending_of parts.entry.table.now parts.entry.«data».now member))) }
    ensures left { Leaves (store_after (step_verdict (taken_at i (as_room result)) began (store_of store.old) (pending_of parts.entry.table.now parts.entry.«data».now member)) (pending_of parts.entry.table.now parts.entry.«data».now member).writes (store_of store.old)) store.old store.new }
{
    let after = sizes::room_after(parts.table, member.first_write, member.writes, i, room);
    let verdict = if sizes::taken_at(i, after) {
        settle_member(member, began, parts, store)
    } else {
        Verdict::NotTaken
    };
    verdicts[i] = u8::from(verdict);
    after
}
