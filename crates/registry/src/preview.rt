// A preview of EXEC of one of the sixteen sessions.
ghost use Rattle.exec_decision.specs.Numbers.{preview_numbers};
ghost use Rattle.call_numbers.specs.Lending.{lent_read};
ghost use Rattle.call_spec.specs.Calls.{PreviewPromise};

use call_numbers::lent::Lent;
use command_spec::CallError;
use exec_decision::Preview;

// What EXEC of a session would give: the verdict, the length of the reply, which stands in front of `out` with zero behind it, and the last
// sequence that EXEC would leave.
pub fn preview(session: usize, lent: &Lent, out: &mut [u8]) -> Result<Preview, CallError>
    ensures { PreviewPromise session out.old (lent_read lent.now) (preview_numbers result) out.new (lent_read lent.now) }
{
    base_writing::clear(out);
    call_numbers::check_request(session, lent)?;
    call_serve::preview_session(session, lent, out)
}
