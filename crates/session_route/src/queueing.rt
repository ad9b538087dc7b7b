// One of the eleven names inside MULTI.
ghost use Rattle.std.specs.Prelude.{◌≡◌, ◌≤◌, length, get_or, replicate};
ghost use Rattle.command_spec.specs.Names.{row_of};
ghost use Rattle.command_names.specs.Rows.{Looked};
ghost use Rattle.command_spec.specs.Requests.{arguments_of};
ghost use Rattle.command_spec.specs.Held.{Held};
ghost use Rattle.session_route.specs.Answers.{Answered};
ghost use Rattle.session_route.specs.Requests.{row_asked};
ghost use Rattle.session_route.specs.Routes.{queueing, queue_done};
ghost use Rattle.command_spec.specs.Numbers.{answer_numbers};

use crate::steer;
use command_names::Row;
use command_names::named::NamedRequest;
use command_spec::request::Request;
use command_spec::{Answer, CallError, Fixed};

// Queues a command of right argument count and without options: `QueueFull` without room for it, which marks the session and comes before
// `ReplyTooLong`.
fn queue_command(
    words: &mut [u64],
    bytes: &mut [u8],
    request: &Request,
    out: &mut [u8],
    used: usize,
) -> Result<Answer, CallError>
    requires held { Held words.old bytes.old }
    requires fact { get_or words.old 0 0 ≡ 0 → ⊥ }
    requires out_value { out.old ≡ replicate (length out.old) 0 }
    ensures { Answered (queueing (arguments_of request.now)) words.old words.new bytes.old bytes.new used out.old (answer_numbers result) out.new }
{
    if !session_queue::takes(words, request.places, request.count) {
        session_flags::mark_failed(words);
        return Err(CallError::QueueFull);
    }
    let put = command_errors::put_fixed(out, Fixed::Queued);
    let answer = command_answer::put_answer(put, used)?;
    session_queue::append(words, bytes, request);
    Ok(answer)
}

// Queues a command inside MULTI with the name `word`, whose row is `row`. A wrong argument count, and SET with options, queue
// nothing: their error marks the session, and comes before `QueueFull`.
pub fn queue_by_row(
    words: &mut [u64],
    bytes: &mut [u8],
    request: &Request,
    word: &[u8],
    row: Row,
    out: &mut [u8],
    used: usize,
) -> Result<Answer, CallError>
    requires held { Held words.old bytes.old }
    requires le_count { 1 ≤ request.now.count }
    requires looked { Looked word.now row }
    requires fact { get_or words.old 0 0 ≡ 0 → ⊥ }
    requires out_value { out.old ≡ replicate (length out.old) 0 }
    ensures { Answered (queue_done (row_of word.now) (arguments_of request.now)) words.old words.new bytes.old bytes.new used out.old (answer_numbers result) out.new }
{
    let behind = request.count - 1;
    if !command_names::count_right(row, behind) {
        return steer::refuse_count(words, word, out, used);
    }
    if command_names::with_options(row, behind) {
        return steer::refuse_options(words, out, used);
    }
    queue_command(words, bytes, request, out, used)
}

// Queues a command inside MULTI: `queue_by_row` with the request's name and its row.
pub fn queue_up(
    words: &mut [u64],
    bytes: &mut [u8],
    named: &NamedRequest,
    out: &mut [u8],
    used: usize,
) -> Result<Answer, CallError>
    requires held { Held words.old bytes.old }
    requires fact { get_or words.old 0 0 ≡ 0 → ⊥ }
    requires out_value { out.old ≡ replicate (length out.old) 0 }
    ensures { Answered (queue_done (row_asked named.now) (arguments_of named.now.request)) words.old words.new bytes.old bytes.new used out.old (answer_numbers result) out.new }
{
    queue_by_row(
        words,
        bytes,
        &named.request,
        named.name(),
        named.row,
        out,
        used,
    )
}
