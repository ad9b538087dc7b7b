// A request that the session answers without the store.
ghost use Rattle.std.specs.Prelude.{◌≡◌, length, replicate};
ghost use Rattle.command_spec.specs.Requests.{arguments_of};
ghost use Rattle.command_spec.specs.Held.{Held};
ghost use Rattle.session_route.specs.Answers.{AnsweredWith};
ghost use Rattle.session_route.specs.Requests.{row_asked};
ghost use Rattle.session_route.specs.Routes.{way_done, Taken};
ghost use Rattle.command_spec.specs.Numbers.{answer_numbers};

use crate::routes::Way;
use crate::{queueing, steer, watching};
use command_names::named::NamedRequest;
use command_spec::{Answer, CallError};

// Answers a request by its way; `last` is the store's last sequence.
pub fn answer(
    way: Way,
    words: &mut [u64],
    bytes: &mut [u8],
    named: &NamedRequest,
    last: u64,
    out: &mut [u8],
    used: usize,
) -> Result<Answer, CallError>
    requires held { Held words.old bytes.old }
    requires taken { Taken way words.old }
    requires out_value { out.old ≡ replicate (length out.old) 0 }
    ensures { AnsweredWith last (way_done way (row_asked named.now) (arguments_of named.now.request)) words.old words.new bytes.old bytes.new used out.old (answer_numbers result) out.new }
{
    // A `match`: the input tells which runs, and no function may hand a closure out.
    match way {
        Way::Steer(step) => steer::steer(step, words, out, used),
        Way::Watch => watching::watch_by_row(
            words,
            bytes,
            &named.request,
            named.name(),
            named.row,
            last,
            out,
            used,
        ),
        Way::Queue => queueing::queue_by_row(
            words,
            bytes,
            &named.request,
            named.name(),
            named.row,
            out,
            used,
        ),
        Way::NotQueueable => steer::not_queueable(words, named.name(), out, used),
    }
}
