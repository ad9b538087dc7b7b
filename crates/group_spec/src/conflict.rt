// Has a key of a member moved since its read sequence, or since the group began?
ghost use Rattle.std.specs.Prelude.{◌≡◌, true, ℕ, ◌+◌, ◌*◌, ◌^◌, ◌≤◌, ◌<◌};
ghost use Rattle.store_memtable.specs.Versions.{moved};
ghost use Rattle.store_memtable.specs.Reading.{versions_of};
ghost use Rattle.group_spec.specs.Group.{any_key, held_keys};
ghost use Rattle.group_spec.specs.Members.{list_from, member_inside, pending_of};
ghost use Rattle.group_spec.specs.Settling.{key_part, KeyIn, moved_since};

use crate::Member;
use crate::parts::Parts;
use store_memtable::store::Store;

// Has the key a version above `limit` whose place stands at `at` of the table?
fn key_moved(parts: Parts, at: usize, limit: u64, store: &Store) -> bool
    requires { KeyIn parts.table.now parts.«data».now at }
    ensures { result ≡ moved limit (versions_of store.now) (key_part parts.entry.table.now parts.entry.«data».now at) }
{
    store.moved(parts.key(at), limit)
}

// Has one of `count` keys from key `first` on a version above `limit`, where each place takes `step` words?
fn any_moved(
    parts: Parts,
    step: usize,
    first: usize,
    count: usize,
    limit: u64,
    store: &Store,
) -> bool
    requires count_in_bounds { first + count < 2 ^ 64 }
    requires keys_in { (i : ℕ) → first ≤ i → i < first + count → KeyIn parts.table.now parts.«data».now (step * i) }
    ensures { result ≡ any_key (moved limit (versions_of store.now)) (list_from (λ j. key_part parts.entry.table.now parts.entry.«data».now (step * j)) first count) }
{
    (first..first + count).any(|j| key_moved(parts, step * j, limit, store))
}

// Has one of the member's keys a version above its read sequence, or above the last sequence when the group began?
pub fn moved_since(member: Member, began: u64, parts: Parts, store: &Store) -> bool
    requires { member_inside parts.table.now parts.«data».now member ≡ true }
    ensures { result ≡ moved_since (pending_of parts.entry.table.now parts.entry.«data».now member).read_seq began (versions_of store.now) (held_keys (pending_of parts.entry.table.now parts.entry.«data».now member)) }
{
    if member.has_read == 0 {
        return false;
    }
    let limit = member.read.min(began);
    any_moved(parts, 4, member.first_write, member.writes, limit, store)
        || any_moved(parts, 2, member.first_check, member.checks, limit, store)
}
