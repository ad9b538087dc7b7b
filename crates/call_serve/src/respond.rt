// A request on one session and the store, by its route (`Session::run` of src/server.rs).
ghost use Rattle.std.specs.Prelude.{length};
ghost use Rattle.store_commit.specs.Leaving.{SameLent};
ghost use Rattle.command_spec.specs.Numbers.{answer_numbers};
ghost use Rattle.command_spec.specs.Requests.{arguments_of};
ghost use Rattle.session_route.specs.Responds.{responded, Left, Ready};

use command_names::named::NamedRequest;
use command_spec::{Answer, CallError};
use exec_run::transaction;
use session_route::routes::Route;
use session_route::{local, routes};
use store_commit::lent::StoreMut;
use store_memtable::LAST;

// Answers a request, which uses `used` bytes.
pub fn respond(
    named: &NamedRequest,
    used: usize,
    store: &mut StoreMut,
    swords: &mut [u64],
    sbytes: &mut [u8],
    out: &mut [u8],
) -> Result<Answer, CallError>
    requires { Ready store.old.words.now store.old.bytes.now swords.old sbytes.old out.old }
    ensures lent { SameLent store.old store.new }
    ensures left { Left (responded (length out.old) used (arguments_of named.now.request) store.old.words.now store.old.bytes.now swords.old sbytes.old) out.old store.old.words.now store.old.bytes.now swords.old sbytes.old (answer_numbers result) out.new store.new.words.now store.new.bytes.now swords.new sbytes.new }
{
    let last = store.words[LAST];
    // A `match`: the input tells which runs, and no function may hand a closure out.
    match routes::route_of(swords, named.row) {
        Route::Here(way) => local::answer(way, swords, sbytes, named, last, out, used),
        Route::Exec => transaction::exec(swords, sbytes, store, out, used),
        Route::Run => command_direct::run_command(named, used, store, out),
    }
}
