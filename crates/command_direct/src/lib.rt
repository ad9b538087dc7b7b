// Commands outside MULTI: each answers at once, and its writes commit by themselves.
#![tactic(auto)]

mod kinds;
mod listings;
mod replies;
mod run;

ghost use Rattle.std.specs.Prelude.{◌≡◌, ◌<◌, ◌^◌, length, replicate};
ghost use Rattle.store_memtable.specs.Layout.{last_word};
ghost use Rattle.store_commit.specs.Leaving.{SameLent};
ghost use Rattle.command_spec.specs.Command.{executed_of};
ghost use Rattle.command_spec.specs.Requests.{arguments_of};
ghost use Rattle.command_room.specs.Served.{Answers};
ghost use Rattle.command_spec.specs.Numbers.{answer_numbers};

use command_meaning::Executed;
use command_names::named::NamedRequest;
use command_spec::{Answer, CallError};
use store_commit::lent::StoreMut;

// Runs the command of a request, by the row of its name.
pub fn run_command(
    named: &NamedRequest,
    used: usize,
    store: &mut StoreMut,
    out: &mut [u8],
) -> Result<Answer, CallError>
    requires words_bound { last_word store.old.words.now < 2 ^ 64 }
    requires out_value { out.old ≡ replicate (length out.old) 0 }
    ensures lent { SameLent store.old store.new }
    ensures answers { Answers (executed_of (arguments_of named.now.request)) used out.old store.old.words.now store.old.bytes.now (answer_numbers result) out.new store.new.words.now store.new.bytes.now }
{
    let request = &named.request;
    // A `match`: the input tells which runs, and no function may hand a closure out.
    match command_meaning::executed_of(named) {
        Executed::Runs(kind) => kinds::run_kind(kind, request, used, store, out),
        Executed::Lists(listing) => {
            listings::answer_listing(listing, request, used, &store.read(), out)
        }
        Executed::Refused(refusal) => replies::answer_refusal(refusal, request, used, out),
    }
}
