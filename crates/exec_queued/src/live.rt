// How many keys are live.
ghost use Rattle.std.specs.Prelude.{◌≤◌};
ghost use Rattle.base_writing.specs.Puts.{Adds};
ghost use Rattle.resp_spec.specs.Reply.{encode};
ghost use Rattle.command_spec.specs.Requests.{arguments_of};
ghost use Rattle.command_lookup.specs.Reads.{read_through};
ghost use Rattle.command_meaning.specs.Kinds.{live_reply};

use command_lookup::live;
use command_lookup::reader::Reader;
use command_spec::request::Request;

// Writes how many of the keys behind the name are live, a repeated one counted each time.
pub fn then_live(
    reader: &Reader,
    request: &Request,
    out: &mut [u8],
    put: Option<usize>,
) -> Option<usize>
    requires { 1 ≤ request.now.count }
    ensures { Adds (encode (live_reply (read_through reader.now) (arguments_of request.now))) put out.old result out.new }
{
    let n = live::count_live(reader, request, 1);
    resp_items::then_int(out, put, n.cast_signed())
}
