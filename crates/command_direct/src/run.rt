// The commands that write: the reply is put, the room is looked at, and a command whose reply fits commits.
ghost use Rattle.std.specs.Prelude.{◌≡◌, ◌+◌, ◌-◌, ◌*◌, ◌^◌, ◌≤◌, ◌<◌, length, replicate};
ghost use Rattle.base_writing.specs.Puts.{Puts};
ghost use Rattle.resp_spec.specs.Reply.{ok};
ghost use Rattle.store_memtable.specs.Layout.{last_word};
ghost use Rattle.store_commit.specs.Leaving.{SameLent};
ghost use Rattle.command_spec.specs.Command.{held, raised};
ghost use Rattle.command_spec.specs.Numbers.{answer_numbers};
ghost use Rattle.command_spec.specs.Places.{pairs_at};
ghost use Rattle.command_room.specs.Reading.{last_reader};
ghost use Rattle.command_room.specs.Served.{Runs, Admitted, deletion, counted, integer_text, AdmittedText, RunsText};

use crate::replies;
use base_number::integer;
use command_lookup::counter;
use command_lookup::reader::Reader;
use command_room::{commit, room};
use command_spec::request::Request;
use command_spec::{Answer, CallError, Fixed};
use store_commit::lent::StoreMut;
use store_commit::open;
use store_memtable::store::Store;

// SET and MSET before their commit: `pairs` keys and values in turn, behind the name.
fn admit_pairs(
    request: &Request,
    pairs: usize,
    used: usize,
    store: &Store,
    out: &mut [u8],
) -> Result<Answer, CallError>
    requires pairs_inside { 1 + 2 * pairs ≤ request.now.count }
    requires out_value { out.old ≡ replicate (length out.old) 0 }
    ensures { Admitted (ok, pairs_at 1 (2 * pairs) request.now.places.now request.now.input.now) used out.old store.now.words.now store.now.bytes.now (answer_numbers result) out.new }
{
    let put = command_errors::put_fixed(out, Fixed::Ok);
    let free = room::free_bytes(store.words);
    let left = room::lengths_left(request.places, 1, 1 + 2 * pairs, free);
    let checked = room::check_room(store.words, pairs, left);
    room::room_answer(out, checked, put, used)
}

// SET and MSET.
pub fn run_pairs(
    request: &Request,
    pairs: usize,
    used: usize,
    store: &mut StoreMut,
    out: &mut [u8],
) -> Result<Answer, CallError>
    requires pairs_inside { 1 + 2 * pairs ≤ request.now.count }
    requires out_value { out.old ≡ replicate (length out.old) 0 }
    ensures lent { SameLent store.old store.new }
    ensures runs { Runs (ok, pairs_at 1 (2 * pairs) request.now.places.now request.now.input.now) used out.old store.old.words.now store.old.bytes.now (answer_numbers result) out.new store.new.words.now store.new.bytes.now }
{
    let answer = admit_pairs(request, pairs, used, &store.read(), out)?;
    commit::commit_pairs(request, 1, pairs, store);
    Ok(answer)
}

// DEL before its commit: the keys behind the name.
fn admit_tombstones(
    request: &Request,
    used: usize,
    store: &Store,
    out: &mut [u8],
) -> Result<Answer, CallError>
    requires le_count { 1 ≤ request.now.count }
    requires out_value { out.old ≡ replicate (length out.old) 0 }
    ensures { Admitted (deletion request.now.count request.now.places.now request.now.input.now store.now.words.now store.now.bytes.now) used out.old store.now.words.now store.now.bytes.now (answer_numbers result) out.new }
{
    let put = replies::put_live(request, &Reader::last(store), out);
    let free = room::free_bytes(store.words);
    let left = room::lengths_left(request.places, 1, request.count, free);
    let checked = room::check_room(store.words, request.count - 1, left);
    room::room_answer(out, checked, put, used)
}

// DEL.
pub fn run_tombstones(
    request: &Request,
    used: usize,
    store: &mut StoreMut,
    out: &mut [u8],
) -> Result<Answer, CallError>
    requires le_count { 1 ≤ request.now.count }
    requires out_value { out.old ≡ replicate (length out.old) 0 }
    ensures lent { SameLent store.old store.new }
    ensures runs { Runs (deletion request.now.count request.now.places.now request.now.input.now store.old.words.now store.old.bytes.now) used out.old store.old.words.now store.old.bytes.now (answer_numbers result) out.new store.new.words.now store.new.bytes.now }
{
    let answer = admit_tombstones(request, used, &store.read(), out)?;
    commit::commit_tombstones(request, 1, store);
    Ok(answer)
}

// Writes an integer by its text.
fn put_integer_text(out: &mut [u8], text: &[u8]) -> Option<usize>
    ensures { Puts (integer_text text.now) out.old result out.new }
{
    let mark = base_writing::put_byte(out, b':');
    let line = base_writing::then_bytes(out, mark, text);
    base_writing::then_bytes(out, line, b"\r\n")
}

// A counter before its commit, by the text of its new value.
fn admit_text(
    name: &[u8],
    text: &[u8],
    used: usize,
    store: &Store,
    out: &mut [u8],
) -> Result<Answer, CallError>
    requires { out.old ≡ replicate (length out.old) 0 }
    ensures { AdmittedText name.now text.now used out.old store.now.words.now store.now.bytes.now (answer_numbers result) out.new }
{
    let put = put_integer_text(out, text);
    let free = room::free_bytes(store.words);
    let left = open::take_bytes(free, name.len(), text.len());
    let checked = room::check_room(store.words, 1, left);
    room::room_answer(out, checked, put, used)
}

// A counter, by the text of its new value.
fn run_text(
    name: &[u8],
    text: &[u8],
    used: usize,
    store: &mut StoreMut,
    out: &mut [u8],
) -> Result<Answer, CallError>
    requires { out.old ≡ replicate (length out.old) 0 }
    ensures lent { SameLent store.old store.new }
    ensures runs { RunsText name.now text.now used out.old store.old.words.now store.old.bytes.now (answer_numbers result) out.new store.new.words.now store.new.bytes.now }
{
    let answer = admit_text(name, text, used, &store.read(), out)?;
    store.commit_one(name, text, true);
    Ok(answer)
}

// A counter that is put to `number`.
fn run_number(
    name: &[u8],
    number: i64,
    used: usize,
    store: &mut StoreMut,
    out: &mut [u8],
) -> Result<Answer, CallError>
    requires { out.old ≡ replicate (length out.old) 0 }
    ensures lent { SameLent store.old store.new }
    ensures runs { Runs (counted name.now number) used out.old store.old.words.now store.old.bytes.now (answer_numbers result) out.new store.new.words.now store.new.bytes.now }
{
    let mut text = [0u8; 20];
    let len = base_decimal::put_decimal(&mut text, number).ok_or(CallError::ReplyTooLong)?;
    run_text(name, &text[..len], used, store, out)
}

// INCR, DECR and INCRBY by `by`: the number read and the checked sum, or the error.
pub fn run_counter(
    name: &[u8],
    by: i64,
    used: usize,
    store: &mut StoreMut,
    out: &mut [u8],
) -> Result<Answer, CallError>
    requires words_bound { last_word store.old.words.now < 2 ^ 64 }
    requires out_value { out.old ≡ replicate (length out.old) 0 }
    ensures lent { SameLent store.old store.new }
    ensures runs { Runs (raised name.now by (held (last_reader store.old.words.now store.old.bytes.now name.now))) used out.old store.old.words.now store.old.bytes.now (answer_numbers result) out.new store.new.words.now store.new.bytes.now }
{
    let Some(number) = counter::held_number(&Reader::last(&store.read()), name) else {
        return replies::answer_fixed(Fixed::NotInteger, used, out);
    };
    let Some(sum) = integer::checked_sum(number, by) else {
        return replies::answer_fixed(Fixed::Overflow, used, out);
    };
    run_number(name, sum, used, store, out)
}
