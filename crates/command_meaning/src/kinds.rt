// What the commands that may be queued do, by their arguments.
ghost use Rattle.std.specs.Prelude.{◌≡◌, true, false, ◌-◌, ◌≤◌};
ghost use Rattle.command_spec.specs.declared.Operation.TheVariants.{Ping, Incrby};
ghost use Rattle.command_spec.specs.declared.Name.TheVariants.{Queueable};
ghost use Rattle.command_spec.specs.Names.{count_right, with_options, request_queueable};
ghost use Rattle.command_spec.specs.Command.{request_operation};
ghost use Rattle.command_names.specs.Rows.{row_at};
ghost use Rattle.command_spec.specs.Requests.{arguments_of};
ghost use Rattle.command_meaning.specs.Kinds.{KindIs};
ghost use Rattle.command_meaning.specs.Reading.{row_place, KindFor};

use crate::{Kind, Read};
use base_number::integer;
use command_spec::request::Request;
use command_spec::{Fixed, Operation};

// PING, alone or with an argument.
fn ping(count: usize) -> Kind
    requires { 1 ≤ count }
    ensures { KindFor Ping count result }
{
    if count == 1 {
        Kind::Reads(Read::Says(Fixed::Pong))
    } else {
        Kind::Reads(Read::Echo)
    }
}

// INCRBY: its amount is argument 2.
fn incrby(request: &Request) -> Kind
    requires le_count { 3 ≤ request.now.count }
    ensures { KindIs Incrby (arguments_of request.now) request.now.count result }
{
    let Some(by) = integer::int_arg(request.argument(2)) else {
        return Kind::Reads(Read::Says(Fixed::NotInteger));
    };
    Kind::Counter(by)
}

// What an operation does, for a right argument count and no options.
pub fn kind_of(operation: Operation, request: &Request) -> Kind
    requires le_count { 1 ≤ request.now.count }
    requires count_value { count_right (row_at (row_place (Queueable operation))) (request.now.count - 1) ≡ true }
    requires count_value_2 { with_options operation (request.now.count - 1) ≡ false }
    ensures { KindIs operation (arguments_of request.now) request.now.count result }
{
    match operation {
        Operation::Get => Kind::Reads(Read::Value),
        Operation::Set => Kind::Pairs,
        Operation::Del => Kind::Tombstones,
        Operation::Exists => Kind::Reads(Read::Live),
        Operation::Mget => Kind::Reads(Read::Values),
        Operation::Mset => Kind::Pairs,
        Operation::Incr => Kind::Counter(1),
        Operation::Incrby => incrby(request),
        Operation::Decr => Kind::Counter(-1),
        Operation::Ping => ping(request.count),
        Operation::Echo => Kind::Reads(Read::Echo),
    }
}

// What a queued command does.
pub fn kind_at(request: &Request) -> Kind
    requires le_count { 1 ≤ request.now.count }
    requires data_value { request_queueable (arguments_of request.now) ≡ true }
    ensures { KindIs (request_operation (arguments_of request.now)) (arguments_of request.now) request.now.count result }
{
    let row = command_names::look_up(request.argument(0));
    kind_of(command_names::operation_of(row.name), request)
}
