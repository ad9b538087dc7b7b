// The commands outside MULTI that write nothing: the reply is put, and the answer is made of it.
ghost use Rattle.std.specs.Prelude.{◌≡◌, [], pos, length, replicate, ◌-◌, ◌^◌, ◌≤◌, ◌<◌};
ghost use Rattle.base_writing.specs.Puts.{Puts};
ghost use Rattle.resp_spec.specs.Reply.{Integer, encode};
ghost use Rattle.store_memtable.specs.Layout.{last_word};
ghost use Rattle.store_memtable.specs.Rows.{Valid};
ghost use Rattle.command_spec.specs.Command.{live};
ghost use Rattle.command_spec.specs.Errors.{fixed_reply};
ghost use Rattle.command_spec.specs.Places.{arguments_at};
ghost use Rattle.command_lookup.specs.Reads.{read_through};
ghost use Rattle.command_meaning.specs.Kinds.{read_reply, least_read};
ghost use Rattle.command_meaning.specs.Meant.{refusal_reply};
ghost use Rattle.command_spec.specs.Requests.{arguments_of};
ghost use Rattle.command_room.specs.Reading.{last_reader};
ghost use Rattle.command_room.specs.Served.{Runs};
ghost use Rattle.command_spec.specs.Numbers.{answer_numbers};

use command_lookup::reader::Reader;
use command_lookup::{live, values};
use command_meaning::{Read, Refusal};
use command_spec::request::Request;
use command_spec::{Answer, CallError, Fixed};
use resp_encode::reply;
use store_memtable::store::Store;

// A reply that the arguments settle: it leaves any store.
pub fn answer_fixed(which: Fixed, used: usize, out: &mut [u8]) -> Result<Answer, CallError>
    requires { out.old ≡ replicate (length out.old) 0 }
    ensures { (w b : _) → Valid w b → last_word w < 2 ^ 64 → Runs (fixed_reply which, []) used out.old w b (answer_numbers result) out.new w b }
{
    let put = command_errors::put_fixed(out, which);
    command_answer::put_answer(put, used)
}

// Writes how many of the keys behind the name are live, a repeated one counted each time.
pub fn put_live(request: &Request, reader: &Reader, out: &mut [u8]) -> Option<usize>
    requires { 1 ≤ request.now.count }
    ensures { Puts (encode (Integer (pos (live (read_through reader.now) (arguments_at 1 (request.now.count - 1) request.now.places.now request.now.input.now))))) out.old result out.new }
{
    let count = live::count_live(reader, request, 1);
    reply::put_int(out, count as i64)
}

// Writes the reply of a command that writes nothing.
fn put_read(read: Read, request: &Request, store: &Store, out: &mut [u8]) -> Option<usize>
    requires { least_read read ≤ request.now.count }
    ensures { Puts (encode (read_reply read (last_reader store.now.words.now store.now.bytes.now) (arguments_of request.now))) out.old result out.new }
{
    let reader = Reader::last(store);
    // A `match`: the input tells which runs, and no function may hand a closure out.
    match read {
        Read::Value => values::then_value(out, Some(0), &reader, request.argument(1)),
        Read::Live => put_live(request, &reader, out),
        Read::Values => values::then_values(out, Some(0), &reader, request, 1),
        Read::Echo => reply::put_bulk(out, request.argument(1)),
        Read::Says(which) => command_errors::put_fixed(out, which),
    }
}

// Answers a command that writes nothing.
pub fn answer_read(
    read: Read,
    request: &Request,
    used: usize,
    store: &Store,
    out: &mut [u8],
) -> Result<Answer, CallError>
    requires read_bound { least_read read ≤ request.now.count }
    requires words_bound { last_word store.now.words.now < 2 ^ 64 }
    requires out_value { out.old ≡ replicate (length out.old) 0 }
    ensures { Runs (read_reply read (last_reader store.now.words.now store.now.bytes.now) (arguments_of request.now), []) used out.old store.now.words.now store.now.bytes.now (answer_numbers result) out.new store.now.words.now store.now.bytes.now }
{
    let put = put_read(read, request, store, out);
    command_answer::put_answer(put, used)
}

// Writes the error of a request that is not carried out.
fn put_refusal(refusal: Refusal, request: &Request, out: &mut [u8]) -> Option<usize>
    requires { 1 ≤ request.now.count }
    ensures { Puts (encode (refusal_reply refusal (arguments_of request.now))) out.old result out.new }
{
    // A `match`: the input tells which runs, and no function may hand a closure out.
    match refusal {
        Refusal::Says(which) => command_errors::put_fixed(out, which),
        Refusal::Arity => command_errors::put_arity(out, request.argument(0)),
        Refusal::Unknown => command_errors::put_unknown(out, request.argument(0)),
    }
}

// Answers a request that is not carried out: it leaves any store.
pub fn answer_refusal(
    refusal: Refusal,
    request: &Request,
    used: usize,
    out: &mut [u8],
) -> Result<Answer, CallError>
    requires le_count { 1 ≤ request.now.count }
    requires out_value { out.old ≡ replicate (length out.old) 0 }
    ensures { (w b : _) → Valid w b → last_word w < 2 ^ 64 → Runs (refusal_reply refusal (arguments_of request.now), []) used out.old w b (answer_numbers result) out.new w b }
{
    let put = put_refusal(refusal, request, out);
    command_answer::put_answer(put, used)
}
