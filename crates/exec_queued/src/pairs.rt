// SET and MSET inside EXEC.
ghost use Rattle.std.specs.Prelude.{◌+◌, ◌-◌, ◌*◌, ◌≤◌, length};
ghost use Rattle.command_meaning.specs.Kinds.{InPairs};
ghost use Rattle.command_spec.specs.Requests.{arguments_of};
ghost use Rattle.command_writes.specs.Own.{Own};
ghost use Rattle.command_meaning.specs.Kinds.{pairs_effect};
ghost use Rattle.exec_queued.specs.Walks.{Ran};

use crate::Walked;
use command_spec::Fixed;
use command_spec::request::Request;
use command_writes::arguments;

// Sets the write of each pair of a key and a value, and answers `+OK`.
pub fn run_pairs(request: &Request, own: &mut [u64], out: &mut [u8], at: Walked) -> Walked
    requires own { Own own.old request.now.input.now at.rows }
    requires in_pairs { InPairs request.now.count }
    requires count_in_bounds { 4 * (at.rows + (request.now.count - 1)) ≤ length own.old }
    ensures { Ran (pairs_effect (arguments_of request.now)) (request.now.count - 1) request.now.input.now own.old out.old at own.new out.new result }
{
    let put = command_errors::then_fixed(out, at.put, Fixed::Ok);
    let rows = arguments::put_pairs(own, at.rows, request, 1);
    Walked { rows, put, ..at }
}
