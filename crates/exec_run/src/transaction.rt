// EXEC of one session: what is decided is applied.
ghost use Rattle.std.specs.Prelude.{◌≡◌, true, length, replicate};
ghost use Rattle.store_memtable.specs.Layout.{last_word};
ghost use Rattle.store_commit.specs.Leaving.{SameLent};
ghost use Rattle.command_spec.specs.Held.{Held};
ghost use Rattle.command_spec.specs.Lent.{OneSession};
ghost use Rattle.command_spec.specs.Sessions.{session_ok};
ghost use Rattle.exec_finish.specs.Leaving.{Leaves};
ghost use Rattle.exec_run.specs.Execution.{ExecReady, SizesOf, WorkingMemory, exec_served};
ghost use Rattle.command_spec.specs.Numbers.{answer_numbers};

use crate::layout::Sizes;
use crate::{decide, layout};
use command_spec::{Answer, CallError};
use command_writes::own::OwnWrites;
use session_memory::session::Session;
use store_commit::lent::StoreMut;

// Runs the queue in lent working memory, and applies what is decided. A preview cannot share it: session and store are written where it only reads.
fn exec_in(
    session_words: &mut [u64],
    session_bytes: &[u8],
    store: &mut StoreMut,
    out: &mut [u8],
    used: usize,
    sizes: Sizes,
    places: &mut [u64],
    own: &mut [u64],
    data: &mut [u8],
) -> Result<Answer, CallError>
    requires exec_ready { ExecReady session_words.old session_bytes.now store.old.words.now store.old.bytes.now out.old }
    requires sizes_of { SizesOf session_words.old sizes }
    requires working_memory { WorkingMemory sizes places.old own.old «data».old }
    ensures lent { SameLent store.old store.new }
    ensures leaves { Leaves (exec_served (length out.old) used session_words.old session_bytes.now store.old.words.now store.old.bytes.now) out.old store.old.words.now store.old.bytes.now session_words.old session_bytes.now (answer_numbers result) out.new store.new.words.now store.new.bytes.now session_words.new }
{
    let session = Session {
        words: session_words,
        bytes: session_bytes,
    };
    let prepared = decide::decide_queue(&session, &store.read(), out, sizes, places, own, data);
    let (rows, end) = match prepared {
        Ok(decided) => (decided.rows, decided.end),
        Err(_) => (0, 0),
    };
    let writes = OwnWrites {
        own,
        rows,
        data: &data[..end],
    };
    exec_finish::conclude(session_words, &writes, store, prepared, used)
}

// The same, with working memory by the sizes of the queue.
fn exec_queue(
    session_words: &mut [u64],
    session_bytes: &[u8],
    store: &mut StoreMut,
    out: &mut [u8],
    used: usize,
) -> Result<Answer, CallError>
    requires { ExecReady session_words.old session_bytes.now store.old.words.now store.old.bytes.now out.old }
    ensures lent { SameLent store.old store.new }
    ensures leaves { Leaves (exec_served (length out.old) used session_words.old session_bytes.now store.old.words.now store.old.bytes.now) out.old store.old.words.now store.old.bytes.now session_words.old session_bytes.now (answer_numbers result) out.new store.new.words.now store.new.bytes.now session_words.new }
{
    let sizes = layout::sizes_of(session_words);
    layout::with_memory(
        sizes,
        &mut |places, own, data| {
            exec_in(
                session_words,
                session_bytes,
                store,
                out,
                used,
                sizes,
                places,
                own,
                data,
            )
        },
    )
}

// EXEC of a valid session, into a cleared reply buffer.
pub fn exec(
    session_words: &mut [u64],
    session_bytes: &[u8],
    store: &mut StoreMut,
    out: &mut [u8],
    used: usize,
) -> Result<Answer, CallError>
    requires one_session { OneSession session_words.old session_bytes.now }
    requires session_valid { session_ok (last_word store.old.words.now) session_words.old session_bytes.now ≡ true }
    requires out_value { out.old ≡ replicate (length out.old) 0 }
    ensures lent { SameLent store.old store.new }
    ensures leaves { Leaves (exec_served (length out.old) used session_words.old session_bytes.now store.old.words.now store.old.bytes.now) out.old store.old.words.now store.old.bytes.now session_words.old session_bytes.now (answer_numbers result) out.new store.new.words.now store.new.bytes.now session_words.new }
{
    let session = Session {
        words: session_words,
        bytes: session_bytes,
    };
    let Some(prepared) = decide::before_queue(&session, &store.read(), out).transpose() else {
        return exec_queue(session_words, session_bytes, store, out, used);
    };
    let none = OwnWrites {
        own: &[],
        rows: 0,
        data: &[],
    };
    exec_finish::conclude(session_words, &none, store, prepared, used)
}
