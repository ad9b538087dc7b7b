// WATCH outside MULTI.
ghost use Rattle.std.specs.Prelude.{◌≡◌, ◌≤◌, length, replicate};
ghost use Rattle.command_spec.specs.Names.{arguments, row_of};
ghost use Rattle.command_names.specs.Rows.{Looked};
ghost use Rattle.command_spec.specs.Requests.{arguments_of};
ghost use Rattle.command_spec.specs.Held.{Held};
ghost use Rattle.session_route.specs.Answers.{Answered};
ghost use Rattle.session_route.specs.Requests.{row_asked};
ghost use Rattle.session_route.specs.Routes.{watching_at, watch_done};
ghost use Rattle.command_spec.specs.Numbers.{answer_numbers};

use crate::answers;
use command_names::Row;
use command_names::named::NamedRequest;
use command_spec::request::Request;
use command_spec::{Answer, CallError, Fixed};
use session_memory::session::Session;
use session_watch::watch::Watch;

// Watches the keys behind the name, all of them: `WatchFull` without room for them, which comes before `ReplyTooLong`.
fn watch_arguments(
    words: &mut [u64],
    bytes: &mut [u8],
    request: &Request,
    last: u64,
    out: &mut [u8],
    used: usize,
) -> Result<Answer, CallError>
    requires held { Held words.old bytes.old }
    requires le_count { 1 ≤ request.now.count }
    requires out_value { out.old ≡ replicate (length out.old) 0 }
    ensures { Answered (watching_at (arguments (arguments_of request.now)) last) words.old words.new bytes.old bytes.new used out.old (answer_numbers result) out.new }
{
    let mut watch = Watch::of(&Session { words, bytes });
    let Some(()) = watch.add_keys(request, last) else {
        return Err(CallError::WatchFull);
    };
    let put = command_errors::put_fixed(out, Fixed::Ok);
    let answer = command_answer::put_answer(put, used)?;
    watch.keep(words, bytes);
    Ok(answer)
}

// WATCH with the name `word`, whose row is `row`: keys that are new to the watch get the store's last sequence.
pub fn watch_by_row(
    words: &mut [u64],
    bytes: &mut [u8],
    request: &Request,
    word: &[u8],
    row: Row,
    last: u64,
    out: &mut [u8],
    used: usize,
) -> Result<Answer, CallError>
    requires held { Held words.old bytes.old }
    requires le_count { 1 ≤ request.now.count }
    requires looked { Looked word.now row }
    requires out_value { out.old ≡ replicate (length out.old) 0 }
    ensures { Answered (watch_done (row_of word.now) (arguments (arguments_of request.now)) last) words.old words.new bytes.old bytes.new used out.old (answer_numbers result) out.new }
{
    if command_names::count_right(row, request.count - 1) {
        return watch_arguments(words, bytes, request, last, out, used);
    }
    answers::reply_arity(out, word, used)
}

// WATCH: `watch_by_row` with the request's name and its row.
pub fn watch_keys(
    words: &mut [u64],
    bytes: &mut [u8],
    named: &NamedRequest,
    last: u64,
    out: &mut [u8],
    used: usize,
) -> Result<Answer, CallError>
    requires held { Held words.old bytes.old }
    requires out_value { out.old ≡ replicate (length out.old) 0 }
    ensures { Answered (watch_done (row_asked named.now) (arguments (arguments_of named.now.request)) last) words.old words.new bytes.old bytes.new used out.old (answer_numbers result) out.new }
{
    watch_by_row(
        words,
        bytes,
        &named.request,
        named.name(),
        named.row,
        last,
        out,
        used,
    )
}
