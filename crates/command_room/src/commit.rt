// The writes of one command, committed in the order of its arguments.
ghost use Rattle.std.specs.Prelude.{◌+◌, ◌-◌, ◌*◌, ◌≤◌};
ghost use Rattle.store_memtable.specs.Versions.{commit};
ghost use Rattle.store_commit.specs.Leaving.{Leaves, store_of};
ghost use Rattle.command_spec.specs.Places.{tombstones_at, pairs_at};
ghost use Rattle.command_room.specs.Writes.{RoomForAll};

use command_spec::request::Request;
use store_commit::lent::StoreMut;

// Commits a tombstone for each key from place `from` on.
pub fn commit_tombstones(request: &Request, from: usize, store: &mut StoreMut)
    requires le_count { from ≤ request.now.count }
    requires room_for_all { RoomForAll store.old.words.now (tombstones_at from (request.now.count - from) request.now.places.now request.now.input.now) }
    ensures { Leaves (commit (tombstones_at from (request.now.count - from) request.now.places.now request.now.input.now) (store_of store.old)) store.old store.new }
{
    for i in from..request.count {
        let name = request.argument(i);
        store.commit_one(name, name, false);
    }
}

// Commits `pairs` keys and values in turn, from place `from` on.
pub fn commit_pairs(request: &Request, from: usize, pairs: usize, store: &mut StoreMut)
    requires pairs_inside { from + 2 * pairs ≤ request.now.count }
    requires room_for_all { RoomForAll store.old.words.now (pairs_at from (2 * pairs) request.now.places.now request.now.input.now) }
    ensures { Leaves (commit (pairs_at from (2 * pairs) request.now.places.now request.now.input.now) (store_of store.old)) store.old store.new }
{
    for j in 0..pairs {
        let i = from + 2 * j;
        store.commit_one(request.argument(i), request.argument(i + 1), true);
    }
}
