// One queued command run, and all of them.
ghost use Rattle.std.specs.Prelude.{◌≡◌, true, ◌+◌, ◌-◌, ◌*◌, ◌≤◌, length, get_or, take};
ghost use Rattle.base_key.specs.Bytes.{part, total};
ghost use Rattle.store_memtable.specs.Reading.{versions_of};
ghost use Rattle.command_spec.specs.Names.{request_queueable};
ghost use Rattle.command_spec.specs.Command.{command_of, run};
ghost use Rattle.command_spec.specs.Places.{arguments_at, PartsIn};
ghost use Rattle.command_writes.specs.Own.{Own, reader_of};
ghost use Rattle.exec_queued.specs.Walks.{MayRun, Advanced};
ghost use Rattle.exec_run.specs.Progress.{begun, advance_all, Queued, commands_in, lent_from, QueueRan};

use crate::answers;
use command_lookup::reader::Reader;
use command_meaning::{Kind, kinds};
use command_spec::request::Request;
use command_writes::own::OwnWrites;
use exec_queued::{Walked, counters, pairs, tombstones};
use resp_encode::reply;
use session_memory::{COUNTS, QUEUED};
use store_memtable::store::Store;

// Runs a queued command.
pub fn run_queued(
    places: &[u64],
    count: usize,
    own: &mut [u64],
    data: &mut [u8],
    store: &Store,
    seq: u64,
    out: &mut [u8],
    at: Walked,
) -> Walked
    requires may_run { MayRun places.now count own.old «data».old at }
    requires le_count { 1 ≤ count }
    requires data_value { request_queueable (arguments_at 0 count places.now (take at.used «data».old)) ≡ true }
    ensures { Advanced (run (reader_of own.old (take at.used «data».old) at.rows store.now.words.now store.now.bytes.now seq) (command_of (arguments_at 0 count places.now (take at.used «data».old)))) (count - 1) own.old «data».old out.old at own.new «data».new out.new result }
{
    let request = Request {
        input: &data[..at.used],
        places,
        count,
    };
    // A `match`: the input tells which runs, and no function may hand a closure out.
    match kinds::kind_at(&request) {
        Kind::Pairs => pairs::run_pairs(&request, own, out, at),
        Kind::Tombstones => tombstones::run_tombstones(&request, own, store, seq, out, at),
        Kind::Counter(by) => counters::run_counter(
            places, count, by, own, data, store, seq, out, at,
        ),
        Kind::Reads(read) => {
            let reader = Reader {
                writes: OwnWrites {
                    own,
                    rows: at.rows,
                    data: request.input,
                },
                store: *store,
                seq,
            };
            let put = answers::then_read(read, &reader, &request, out, at.put);
            Walked { put, ..at }
        }
    }
}

// Where the part of the reply buffer that the next command is lent starts: at the end, once a reply did not fit.
#[tactic(auto, unfolding(crate::specs::Progress::lent_from))]
fn lent_from(put: Option<usize>, len: usize) -> usize
    ensures { result ≡ lent_from put len }
{
    match put {
        Some(_) => 0,
        None => len,
    }
}

// Runs the commands of a session's queue, one after another, behind the head of their replies. `used` bytes of the data are in use.
pub fn run_queue(
    session_words: &[u64],
    places: &[u64],
    own: &mut [u64],
    data: &mut [u8],
    used: usize,
    store: &Store,
    seq: u64,
    out: &mut [u8],
) -> Walked
    requires queued { Queued session_words.now places.now (take used «data».old) }
    requires session_words_in_bounds { 4 * total (part 68 (get_or session_words.now 3 0) session_words.now) ≤ length own.old }
    requires session_words_in_bounds_2 { used + 20 * get_or session_words.now 3 0 ≤ length «data».old }
    ensures { QueueRan (advance_all seq (versions_of store.now) (commands_in session_words.now places.now (take used «data».old)) begun) (get_or session_words.now 3 0) own.old «data».old out.old own.new «data».new out.new result }
{
    let queued = session_memory::word(session_words, QUEUED);
    let mut at = Walked {
        rows: 0,
        used,
        put: reply::put_head(out, b'*', queued as u64),
    };
    let mut first = 0;
    for i in 0..queued {
        let count = session_memory::word(session_words, COUNTS + i);
        let start = 2 * first;
        let end = start + 2 * count;
        let lent = lent_from(at.put, out.len());
        at = run_queued(
            &places[start..end],
            count,
            own,
            data,
            store,
            seq,
            &mut out[lent..],
            at,
        );
        first += count;
    }
    at
}
