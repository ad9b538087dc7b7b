// The replies of the commands that write nothing.
ghost use Rattle.std.specs.Prelude.{◌≤◌};
ghost use Rattle.base_writing.specs.Puts.{Adds};
ghost use Rattle.resp_spec.specs.Reply.{encode};
ghost use Rattle.command_spec.specs.Requests.{arguments_of};
ghost use Rattle.command_lookup.specs.Reads.{read_through};
ghost use Rattle.command_meaning.specs.Kinds.{read_reply, least_read};

use command_lookup::reader::Reader;
use command_lookup::values;
use command_meaning::Read;
use command_spec::request::Request;
use exec_queued::live;

// Writes the reply of a command that writes nothing.
pub fn then_read(
    read: Read,
    reader: &Reader,
    request: &Request,
    out: &mut [u8],
    put: Option<usize>,
) -> Option<usize>
    requires { least_read read ≤ request.now.count }
    ensures { Adds (encode (read_reply read (read_through reader.now) (arguments_of request.now))) put out.old result out.new }
{
    // A `match`: the input tells which runs, and no function may hand a closure out.
    match read {
        Read::Value => values::then_value(out, put, reader, request.argument(1)),
        Read::Live => live::then_live(reader, request, out, put),
        Read::Values => values::then_values(out, put, reader, request, 1),
        Read::Echo => resp_items::then_bulk(out, put, request.argument(1)),
        Read::Says(f) => command_errors::then_fixed(out, put, f),
    }
}
