// A request on one of the sixteen sessions.
ghost use Rattle.std.specs.Prelude.{◌/◌, length};
ghost use Rattle.command_spec.specs.Numbers.{answer_numbers};
ghost use Rattle.call_numbers.specs.Lending.{lent_in, SameMemory};
ghost use Rattle.call_spec.specs.Calls.{RequestPromise, TablePromise};

use call_numbers::lent::LentMut;
use command_spec::{Answer, CallError};

// Answers the request at the front of `input` for a session: the bytes used, and the length of the reply, which stands in front of `out`
// with zero behind it. `places` holds two words for each argument.
pub fn request(
    session: usize,
    input: &[u8],
    places: &mut [u64],
    lent: &mut LentMut,
    out: &mut [u8],
) -> Result<Answer, CallError>
    ensures same_memory { SameMemory lent.old lent.new }
    ensures request_promise { RequestPromise session input.now (length places.old / 2) out.old (lent_in lent.old) (answer_numbers result) out.new (lent_in lent.new) }
    ensures table_promise { TablePromise session input.now (lent_in lent.old) places.old places.new }
{
    base_writing::clear(out);
    call_numbers::check_request(session, &lent.read())?;
    call_serve::serve_session(session, input, places, lent, out)
}
