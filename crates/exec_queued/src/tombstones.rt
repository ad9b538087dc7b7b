// DEL inside EXEC.
ghost use Rattle.std.specs.Prelude.{◌+◌, ◌-◌, ◌*◌, ◌≤◌, length};
ghost use Rattle.command_spec.specs.Requests.{arguments_of};
ghost use Rattle.command_writes.specs.Own.{Own, reader_of};
ghost use Rattle.command_meaning.specs.Kinds.{tombstones_effect};
ghost use Rattle.exec_queued.specs.Walks.{Ran};

use crate::{Walked, live};
use command_lookup::reader::Reader;
use command_spec::request::Request;
use command_writes::arguments;
use command_writes::own::OwnWrites;
use store_memtable::store::Store;

// Answers how many of the keys are live, and sets a tombstone for each.
pub fn run_tombstones(
    request: &Request,
    own: &mut [u64],
    store: &Store,
    seq: u64,
    out: &mut [u8],
    at: Walked,
) -> Walked
    requires own { Own own.old request.now.input.now at.rows }
    requires le_count { 1 ≤ request.now.count }
    requires count_in_bounds { 4 * (at.rows + (request.now.count - 1)) ≤ length own.old }
    ensures { Ran (tombstones_effect (reader_of own.old request.now.input.now at.rows store.now.words.now store.now.bytes.now seq) (arguments_of request.now)) (request.now.count - 1) request.now.input.now own.old out.old at own.new out.new result }
{
    let writes = OwnWrites {
        own,
        rows: at.rows,
        data: request.input,
    };
    let reader = Reader {
        writes,
        store: *store,
        seq,
    };
    let put = live::then_live(&reader, request, out, at.put);
    let rows = arguments::put_tombstones(own, at.rows, request, 1);
    Walked { rows, put, ..at }
}
