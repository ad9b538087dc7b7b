// What EXEC of one session decides: store and session are only read.
ghost use Rattle.std.specs.Prelude.{◌≡◌, true, length, replicate};
ghost use Rattle.store_memtable.specs.Layout.{last_word};
ghost use Rattle.command_spec.specs.Sessions.{session_ok};
ghost use Rattle.exec_finish.specs.Deciding.{Decides};
ghost use Rattle.exec_run.specs.Execution.{BeforeQueue, ExecReady, SizesOf, WorkingMemory, exec_decided, known_numbers};
ghost use Rattle.exec_finish.specs.Numbers.{prepared_numbers};

use crate::layout::Sizes;
use crate::{layout, queued};
use command_spec::{CallError, Fixed};
use exec_finish::Prepared;
use group_spec::Verdict;
use resp_encode::reply;
use session_memory::session::Session;
use store_memtable::LAST;
use store_memtable::store::Store;

// What is known of EXEC of a valid session before its queue runs: the mark comes first, then the watched keys. The reply buffer is cleared.
pub fn before_queue(
    session: &Session,
    store: &Store,
    out: &mut [u8],
) -> Result<Option<Prepared>, CallError>
    requires session_valid { session_ok (last_word store.now.words.now) session.now.words.now session.now.bytes.now ≡ true }
    requires out_value { out.old ≡ replicate (length out.old) 0 }
    ensures { BeforeQueue session.now.words.now session.now.bytes.now store.now.words.now store.now.bytes.now out.old (known_numbers result) out.new }
{
    // The room that is promised speaks of the last sequence: read here, it is known to be a `u64`.
    prove!(store.words[LAST] <= u64::MAX);
    if session_flags::failed(session.words) {
        let put = command_errors::put_fixed(out, Fixed::ExecAbort);
        return Ok(Some(exec_finish::prepare_any(put, Verdict::NotTaken, 0, 0)?));
    }
    if session_watch::watched_moved(session, store) {
        let put = reply::put_nil_array(out);
        return Ok(Some(exec_finish::prepare_any(put, Verdict::Conflict, 0, 0)?));
    }
    Ok(None)
}

// Runs the queue in lent working memory, and decides by room and sequences.
// A struct of the working memory was tried: the borrow checker does not cover a call that is lent two of its fields.
// `ExecReady` joins the session, the store and the reply buffer: a struct of them is no plainer, as EXEC writes each of them by itself afterwards.
pub fn decide_queue(
    session: &Session,
    store: &Store,
    out: &mut [u8],
    sizes: Sizes,
    places: &mut [u64],
    own: &mut [u64],
    data: &mut [u8],
) -> Result<Prepared, CallError>
    requires exec_ready { ExecReady session.now.words.now session.now.bytes.now store.now.words.now store.now.bytes.now out.old }
    requires sizes_of { SizesOf session.now.words.now sizes }
    requires working_memory { WorkingMemory sizes places.old own.old «data».old }
    ensures { Decides (exec_decided (length out.old) session.now.words.now session.now.bytes.now store.now.words.now store.now.bytes.now) store.now.words.now out.old own.new «data».new (prepared_numbers result) out.new }
{
    layout::lay_out(session, sizes, places, data);
    let at = queued::run_queue(
        session.words,
        places,
        own,
        data,
        sizes.bytes,
        store,
        store.words[LAST],
        out,
    );
    exec_finish::judge(own, at.rows, at.used, store.words, out, at.put)
}
