// One request on memory that is known to be valid: it is read, answered by its route, or refused. A preview of EXEC there.
#![tactic(auto)]

mod respond;

ghost use Rattle.std.specs.Prelude.{◌≡◌, ◌/◌, length};
ghost use Rattle.resp_spec.specs.Request.{read_request};
ghost use Rattle.store_commit.specs.Leaving.{SameLent};
ghost use Rattle.session_route.specs.Responds.{Left, Ready};
ghost use Rattle.call_numbers.specs.Lending.{lent_in, lent_read, SameMemory};
ghost use Rattle.call_spec.specs.Calls.{PreviewPromise, RequestPromise, TablePromise};
ghost use Rattle.call_serve.specs.Serving.{FaultLeft, whole_served, served_in, TableHolds, ReadyAmong};
ghost use Rattle.command_spec.specs.Numbers.{answer_numbers};
ghost use Rattle.exec_decision.specs.Numbers.{preview_numbers};

use call_numbers::lent::{Lent, LentMut};
use command_names::named::NamedRequest;
use command_spec::request::Request;
use command_spec::{Answer, CallError};
use exec_decision::Preview;
use exec_run::preview;
use resp_parse::request;
use resp_spec::{Fault, Read};
use session_memory::session::Session;
use session_memory::{BYTES, WORDS};
use store_commit::lent::StoreMut;
use store_memtable::store::Store;

// The reply to a protocol error, which uses all bytes and clears the session.
fn answer_fault(
    input: &[u8],
    fault: Fault,
    swords: &mut [u64],
    out: &mut [u8],
) -> Result<Answer, CallError>
    requires { length swords.old ≡ 644 }
    ensures { FaultLeft input.now fault swords.old out.old (answer_numbers result) swords.new out.new }
{
    let put = resp_faults::put_fault(out, input, fault);
    exec_finish::close(swords, put, input.len())
}

// A request that was read: an empty one gives nothing. `Ready` joins the store, the session and the reply buffer, which the functions below write one by
// one: no struct keeps it.
fn answer_whole(
    request: &Request,
    used: usize,
    store: &mut StoreMut,
    swords: &mut [u64],
    sbytes: &mut [u8],
    out: &mut [u8],
) -> Result<Answer, CallError>
    requires { Ready store.old.words.now store.old.bytes.now swords.old sbytes.old out.old }
    ensures lent { SameLent store.old store.new }
    ensures left { Left (whole_served (length out.old) request.now.count used request.now.places.now request.now.input.now store.old.words.now store.old.bytes.now swords.old sbytes.old) out.old store.old.words.now store.old.bytes.now swords.old sbytes.old (answer_numbers result) out.new store.new.words.now store.new.bytes.now swords.new sbytes.new }
{
    if request.count == 0 {
        return Ok(Answer { used, reply: 0 });
    }
    respond::respond(
        &NamedRequest::new(*request),
        used,
        store,
        swords,
        sbytes,
        out,
    )
}

// One request on the store and one session.
fn serve(
    input: &[u8],
    places: &mut [u64],
    store: &mut StoreMut,
    swords: &mut [u64],
    sbytes: &mut [u8],
    out: &mut [u8],
) -> Result<Answer, CallError>
    requires { Ready store.old.words.now store.old.bytes.now swords.old sbytes.old out.old }
    ensures lent { SameLent store.old store.new }
    ensures left { Left (served_in (length places.old / 2) (length out.old) input.now store.old.words.now store.old.bytes.now swords.old sbytes.old) out.old store.old.words.now store.old.bytes.now swords.old sbytes.old (answer_numbers result) out.new store.new.words.now store.new.bytes.now swords.new sbytes.new }
    ensures table_holds { TableHolds (read_request (length places.old / 2) input.now) places.new }
{
    match request::read(input, places) {
        Read::Wait => Ok(Answer { used: 0, reply: 0 }),
        Read::Faulty(fault) => answer_fault(input, fault, swords, out),
        Read::TooMany => Err(CallError::TooManyArguments),
        Read::Whole(count, used) => {
            let request = Request {
                input,
                places,
                count,
            };
            answer_whole(&request, used, store, swords, sbytes, out)
        }
    }
}

// The same, on the words and bytes of the store. A function of its own: where it is called, a `StoreMut` made of a struct's fields leaves them unknown.
fn serve_words(
    input: &[u8],
    places: &mut [u64],
    words: &mut [u64],
    bytes: &mut [u8],
    swords: &mut [u64],
    sbytes: &mut [u8],
    out: &mut [u8],
) -> Result<Answer, CallError>
    requires { Ready words.old bytes.old swords.old sbytes.old out.old }
    ensures left { Left (served_in (length places.old / 2) (length out.old) input.now words.old bytes.old swords.old sbytes.old) out.old words.old bytes.old swords.old sbytes.old (answer_numbers result) out.new words.new bytes.new swords.new sbytes.new }
    ensures table_holds { TableHolds (read_request (length places.old / 2) input.now) places.new }
{
    let store = &mut StoreMut { words, bytes };
    serve(input, places, store, swords, sbytes, out)
}

// One request of a session; the store and the sixteen sessions are valid, and `out` is all zero.
pub fn serve_session(
    session: usize,
    input: &[u8],
    places: &mut [u64],
    lent: &mut LentMut,
    out: &mut [u8],
) -> Result<Answer, CallError>
    requires { ReadyAmong session lent.old.words.now lent.old.bytes.now lent.old.session_words.now lent.old.session_bytes.now out.old }
    ensures same_memory { SameMemory lent.old lent.new }
    ensures request_promise { RequestPromise session input.now (length places.old / 2) out.old (lent_in lent.old) (answer_numbers result) out.new (lent_in lent.new) }
    ensures table_promise { TablePromise session input.now (lent_in lent.old) places.old places.new }
{
    let from = session * WORDS;
    let to = from + WORDS;
    let start = session * BYTES;
    let end = start + BYTES;
    serve_words(
        input,
        places,
        lent.words,
        lent.bytes,
        &mut lent.session_words[from..to],
        &mut lent.session_bytes[start..end],
        out,
    )
}

// A preview of EXEC of a session; the store and the sixteen sessions are valid, and `out` is all zero.
pub fn preview_session(session: usize, lent: &Lent, out: &mut [u8]) -> Result<Preview, CallError>
    requires { ReadyAmong session lent.now.words.now lent.now.bytes.now lent.now.session_words.now lent.now.session_bytes.now out.old }
    ensures { PreviewPromise session out.old (lent_read lent.now) (preview_numbers result) out.new (lent_read lent.now) }
{
    let from = session * WORDS;
    let to = from + WORDS;
    let start = session * BYTES;
    let end = start + BYTES;
    let held = Session {
        words: &lent.session_words[from..to],
        bytes: &lent.session_bytes[start..end],
    };
    let store = Store {
        words: lent.words,
        bytes: lent.bytes,
    };
    preview::preview(&held, &store, out)
}
