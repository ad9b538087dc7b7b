// A preview of EXEC of one session: what is decided is told. Store and session are only read.
ghost use Rattle.std.specs.Prelude.{◌≡◌, true, Ok, ◌+◌, ◌^◌, ◌<◌, length, replicate};
ghost use Rattle.store_memtable.specs.Layout.{last_word};
ghost use Rattle.command_spec.specs.Sessions.{session_ok};
ghost use Rattle.exec_run.specs.Execution.{ExecReady, SizesOf, WorkingMemory, exec_decided};
ghost use Rattle.exec_run.specs.Previewing.{Previews, preview_prepared, session_decided};
ghost use Rattle.exec_decision.specs.Numbers.{preview_numbers};
ghost use Rattle.exec_finish.specs.Numbers.{prepared_numbers};

use crate::layout::Sizes;
use crate::{decide, layout};
use command_spec::{CallError, Fixed};
use exec_decision::Preview;
use exec_finish::Prepared;
use group_spec::Verdict;
use session_memory::session::Session;
use store_memtable::store::Store;
use store_memtable::{LAST, read};

// A preview of what is prepared, on a store with this last sequence.
#[tactic(auto, unfolding(crate::specs::Previewing::preview_prepared, exec_decision::specs::Numbers::preview_numbers, exec_finish::specs::Numbers::prepared_numbers))]
fn preview_of(prepared: Prepared, last: u64) -> Preview
    requires { last + prepared.rows < 2 ^ 64 }
    ensures { preview_numbers (Ok result) ≡ preview_prepared last (prepared_numbers (Ok prepared)) }
{
    Preview {
        verdict: prepared.verdict,
        reply: prepared.reply,
        last: last + read::wide(prepared.rows),
    }
}

// Runs the queue in lent working memory, and tells what is decided.
fn preview_in(
    session: &Session,
    store: &Store,
    out: &mut [u8],
    sizes: Sizes,
    places: &mut [u64],
    own: &mut [u64],
    data: &mut [u8],
) -> Result<Preview, CallError>
    requires exec_ready { ExecReady session.now.words.now session.now.bytes.now store.now.words.now store.now.bytes.now out.old }
    requires sizes_of { SizesOf session.now.words.now sizes }
    requires working_memory { WorkingMemory sizes places.old own.old «data».old }
    ensures { Previews (last_word store.now.words.now) (exec_decided (length out.old) session.now.words.now session.now.bytes.now store.now.words.now store.now.bytes.now) out.old (preview_numbers result) out.new }
{
    let prepared = decide::decide_queue(session, store, out, sizes, places, own, data)?;
    let last = store.words[LAST];
    Ok(preview_of(prepared, last))
}

// The same, with working memory by the sizes of the queue.
fn preview_queue(session: &Session, store: &Store, out: &mut [u8]) -> Result<Preview, CallError>
    requires { ExecReady session.now.words.now session.now.bytes.now store.now.words.now store.now.bytes.now out.old }
    ensures { Previews (last_word store.now.words.now) (exec_decided (length out.old) session.now.words.now session.now.bytes.now store.now.words.now store.now.bytes.now) out.old (preview_numbers result) out.new }
{
    let sizes = layout::sizes_of(session.words);
    layout::with_memory(
        sizes,
        &mut |places, own, data| preview_in(session, store, out, sizes, places, own, data),
    )
}

// A preview of EXEC inside MULTI.
fn preview_inside(session: &Session, store: &Store, out: &mut [u8]) -> Result<Preview, CallError>
    requires session_valid { session_ok (last_word store.now.words.now) session.now.words.now session.now.bytes.now ≡ true }
    requires out_value { out.old ≡ replicate (length out.old) 0 }
    ensures { Previews (last_word store.now.words.now) (exec_decided (length out.old) session.now.words.now session.now.bytes.now store.now.words.now store.now.bytes.now) out.old (preview_numbers result) out.new }
{
    let Some(prepared) = decide::before_queue(session, store, out)? else {
        return preview_queue(session, store, out);
    };
    let last = store.words[LAST];
    Ok(preview_of(prepared, last))
}

// A preview of EXEC of a valid session, with its reply in a cleared buffer. Without MULTI no verdict is reached.
pub fn preview(session: &Session, store: &Store, out: &mut [u8]) -> Result<Preview, CallError>
    requires session_valid { session_ok (last_word store.now.words.now) session.now.words.now session.now.bytes.now ≡ true }
    requires out_value { out.old ≡ replicate (length out.old) 0 }
    ensures { Previews (last_word store.now.words.now) (session_decided (length out.old) session.now.words.now session.now.bytes.now store.now.words.now store.now.bytes.now) out.old (preview_numbers result) out.new }
{
    if session_flags::in_multi(session.words) {
        return preview_inside(session, store, out);
    }
    let last = store.words[LAST];
    let put = command_errors::put_fixed(out, Fixed::ExecAlone);
    let prepared = exec_finish::prepare_any(put, Verdict::NotTaken, 0, 0)?;
    Ok(preview_of(prepared, last))
}
