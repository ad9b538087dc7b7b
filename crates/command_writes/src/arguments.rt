// The writes of a command whose arguments are parts of the same data.
ghost use Rattle.std.specs.Prelude.{None, Some};
ghost use Rattle.std.specs.Prelude.{◌+◌, ◌-◌, ◌*◌, ◌/◌, ◌≤◌, length};
ghost use Rattle.group_spec.specs.Settling.{KeyIn};
ghost use Rattle.command_spec.specs.Places.{argument_at, tombstones_at, pairs_at};
ghost use Rattle.command_writes.specs.Own.{Own};
ghost use Rattle.command_writes.specs.Changes.{OwnPut, OwnPuts};

use crate::write;
use command_spec::request::Request;
use group_spec::parts::Parts;
use store_memtable::read;

// A tombstone for the key that is argument k. `own` is written, so no struct keeps `Own` of it: see `write::put`.
pub fn put_tombstone(own: &mut [u64], n: usize, parts: Parts, k: usize) -> usize
    requires own { Own own.old parts.«data».now n }
    requires n_in_bounds { 4 * n + 4 ≤ length own.old }
    requires key_in { KeyIn parts.table.now parts.«data».now (2 * k) }
    ensures { OwnPut own.old own.new parts.entry.«data».now n (argument_at k parts.entry.table.now parts.entry.«data».now) None result }
{
    let start = read::word(parts.table, 2 * k);
    let len = read::word(parts.table, 2 * k + 1);
    write::put(own, n, parts.data, start, len, 0, 0)
}

// The value that is argument v for the key that is argument k.
pub fn put_pair(own: &mut [u64], n: usize, parts: Parts, k: usize, v: usize) -> usize
    requires own { Own own.old parts.«data».now n }
    requires n_in_bounds { 4 * n + 4 ≤ length own.old }
    requires key_in { KeyIn parts.table.now parts.«data».now (2 * k) }
    requires key_in_2 { KeyIn parts.table.now parts.«data».now (2 * v) }
    ensures { OwnPut own.old own.new parts.entry.«data».now n (argument_at k parts.entry.table.now parts.entry.«data».now) (Some (argument_at v parts.entry.table.now parts.entry.«data».now)) result }
{
    let start = read::word(parts.table, 2 * k);
    let len = read::word(parts.table, 2 * k + 1);
    let value_start = read::word(parts.table, 2 * v);
    let value_len = read::word(parts.table, 2 * v + 1);
    write::put(own, n, parts.data, start, len, value_start, value_len + 1)
}

// A tombstone for each of the arguments from `from` on.
pub fn put_tombstones(own: &mut [u64], n: usize, request: &Request, from: usize) -> usize
    requires own { Own own.old request.now.input.now n }
    requires le_count { from ≤ request.now.count }
    requires count_in_bounds { 4 * (n + (request.now.count - from)) ≤ length own.old }
    ensures { OwnPuts own.old own.new request.now.input.now n (tombstones_at from (request.now.count - from) request.now.places.now request.now.input.now) (request.now.count - from) result }
{
    let parts = Parts {
        table: request.places,
        data: request.input,
    };
    let mut r = n;
    for i in from..request.count {
        r = put_tombstone(own, r, parts, i);
    }
    r
}

// A write for each pair of a key and a value among the arguments from `from` on.
pub fn put_pairs(own: &mut [u64], n: usize, request: &Request, from: usize) -> usize
    requires own { Own own.old request.now.input.now n }
    requires le_count { from ≤ request.now.count }
    requires count_in_bounds { 4 * (n + (request.now.count - from) / 2) ≤ length own.old }
    ensures { OwnPuts own.old own.new request.now.input.now n (pairs_at from (request.now.count - from) request.now.places.now request.now.input.now) ((request.now.count - from) / 2) result }
{
    let parts = Parts {
        table: request.places,
        data: request.input,
    };
    let mut r = n;
    for j in 0..(request.count - from) / 2 {
        let i = from + 2 * j;
        r = put_pair(own, r, parts, i, i + 1);
    }
    r
}
