// The working memory of an EXEC: the places of the queued arguments, and a copy of the bytes that they lie in.
ghost use Rattle.std.specs.Prelude.{◌≡◌, true, ◌+◌, ◌*◌, ◌^◌, ◌<◌, ◌≤◌, length, get_or};
ghost use Rattle.base_key.specs.Bytes.{part};
ghost use Rattle.command_spec.specs.Sessions.{queue_in, all_positive, all_queueable};
ghost use Rattle.command_spec.specs.Places.{QueueSizes};
ghost use Rattle.exec_run.specs.Execution.{SizesOf, small, LaidOut, WorkingMemory};

use session_memory::session::Session;
use session_memory::{
    ARGUMENTS, COUNTS, LENGTHS, MOST_ARGUMENT_BYTES, MOST_ARGUMENTS, MOST_QUEUED, QUEUED,
};
use store_commit::merge;

// The limits of a small queue: sixteen SET with 64 bytes each, whose working memory is a tenth of the largest to clear.
const SMALL_COMMANDS: usize = 16;

const SMALL_ARGUMENTS: usize = 48;

const SMALL_BYTES: usize = 1024;

// The longest text of a counter.
const COUNTER_TEXT: usize = 20;

// The lengths of the working memory for a small queue and for every queue: two words for each place, four for each write.
pub const SMALL_PLACES: usize = 2 * SMALL_ARGUMENTS;

pub const SMALL_WRITES: usize = 4 * SMALL_ARGUMENTS;

pub const SMALL_DATA: usize = SMALL_BYTES + COUNTER_TEXT * SMALL_COMMANDS;

pub const MOST_PLACES: usize = 2 * MOST_ARGUMENTS;

pub const MOST_WRITES: usize = 4 * MOST_ARGUMENTS;

pub const MOST_DATA: usize = MOST_ARGUMENT_BYTES + COUNTER_TEXT * MOST_QUEUED;

// The sizes of a queue: its commands, their arguments, and the bytes of these.
#[derive(Clone, Copy)]
pub struct Sizes {
    pub commands: usize,
    pub arguments: usize,
    pub bytes: usize,
}

// The sizes of a session's queue, as `SizesOf` says: a struct of both is no plainer, as EXEC keeps the sizes while it writes the session.
pub fn sizes_of(session_words: &[u64]) -> Sizes
    requires { QueueSizes session_words.now }
    ensures { SizesOf session_words.now result }
{
    let commands = session_memory::word(session_words, QUEUED);
    let arguments = session_memory::sum_within(session_words, COUNTS, commands, MOST_ARGUMENTS);
    let bytes = session_memory::sum_within(session_words, LENGTHS, arguments, MOST_ARGUMENT_BYTES);
    Sizes {
        commands,
        arguments,
        bytes,
    }
}

// Does the small working memory have room for a queue of these sizes?
pub fn is_small(sizes: Sizes) -> bool
    ensures { result ≡ small sizes }
{
    sizes.commands <= SMALL_COMMANDS
        && sizes.arguments <= SMALL_ARGUMENTS
        && sizes.bytes <= SMALL_BYTES
}

// Calls `body` with working memory of these lengths. A function of its own, so that a small queue does not pay for the largest arrays.
#[inline(never)]
fn with_lengths<
    const PLACES: usize,
    const WRITES: usize,
    const DATA: usize,
    R,
    F: FnMut(&mut [u64], &mut [u64], &mut [u8]) -> R,
>(body: &mut F) -> R
    requires callable { (p : _) (w : _) (d : _) → length p.now ≡ PLACES → length w.now ≡ WRITES → length d.now ≡ DATA → F.pre body.old p w d }
    requires memory_fits { 8 * PLACES + 8 * WRITES + DATA < 2 ^ 63 }
    ensures { (p : _) × (w : _) × (d : _) × (p' : _) × (w' : _) × (d' : _) × F.step body.old p w d result p' w' d' body.new }
{
    let mut places = [0u64; PLACES];
    let mut own = [0u64; WRITES];
    let mut data = [0u8; DATA];
    body(&mut places, &mut own, &mut data)
}

// Calls `body` with working memory for a queue of these sizes. An `FnOnce` by value was tried: the caller then does not know what the call changed.
pub fn with_memory<R, F: FnMut(&mut [u64], &mut [u64], &mut [u8]) -> R>(
    sizes: Sizes,
    body: &mut F,
) -> R
    requires few_commands { sizes.commands ≤ MOST_QUEUED }
    requires few_arguments { sizes.arguments ≤ MOST_ARGUMENTS }
    requires few_bytes { sizes.bytes ≤ MOST_ARGUMENT_BYTES }
    requires callable { (p : _) (w : _) (d : _) → WorkingMemory sizes p.now w.now d.now → F.pre body.old p w d }
    ensures { (p : _) × (w : _) × (d : _) × (p' : _) × (w' : _) × (d' : _) × F.step body.old p w d result p' w' d' body.new }
{
    if is_small(sizes) {
        return with_lengths::<SMALL_PLACES, SMALL_WRITES, SMALL_DATA, R, F>(body);
    }
    with_lengths::<MOST_PLACES, MOST_WRITES, MOST_DATA, R, F>(body)
}

// Writes the places of the queued arguments, and their bytes.
pub fn lay_out(session: &Session, sizes: Sizes, places: &mut [u64], data: &mut [u8])
    requires positive { all_positive (part 68 (get_or session.now.words.now 3 0) session.now.words.now) ≡ true }
    requires queueable { all_queueable (queue_in session.now.words.now session.now.bytes.now) ≡ true }
    requires sizes_of { SizesOf session.now.words.now sizes }
    requires arguments_in_bounds { 2 * sizes.arguments ≤ length places.old }
    requires commands_in_bounds { sizes.bytes + 20 * sizes.commands ≤ length «data».old }
    ensures { LaidOut session.now.words.now session.now.bytes.now «data».old places.new «data».new sizes.bytes }
{
    let end = ARGUMENTS + sizes.bytes;
    session_queue::expand(session.words, places, sizes.arguments);
    merge::put(data, 0, &session.bytes[ARGUMENTS..end]);
}
