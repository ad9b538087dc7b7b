// The requests of a frame, one by one, on memory that is valid between them; the hexadecimal of their replies is put into a page of output.
ghost use Rattle.std.specs.Prelude.{◌≤◌, ◌<◌, ◌≡◌, length, take};
ghost use Rattle.call_spec.specs.Frames.{hex};
ghost use Rattle.call_numbers.specs.Lending.{lent_in, SameMemory};
ghost use Rattle.frames_console.specs.Page.{Added, ReplyFits, Moved};
ghost use Rattle.frames_console.specs.Steps.{Fit, Serves, StepFits, After, NextServed, goes_on, SomeServed};

use crate::step;
use crate::step::Step;
use call_numbers::lent::LentMut;
use frames_lines::pieces;
use frames_lines::pieces::Mark;

// A page takes one more reply where so much of it is free: the hexadecimal of 32,768 bytes.
const REPLY_TEXT: usize = 65536;

// How far a frame has come: the place of the next request, whether a reply byte was written, the bytes of the page that are in use,
// whether the page is full before the frame is over, and the frame's mark.
#[derive(Clone, Copy)]
pub struct Progress {
    pub from: usize,
    pub replied: bool,
    pub filled: usize,
    pub full: bool,
    pub mark: Mark,
}

// Puts the hexadecimal of the first `count` bytes of a reply behind the `filled` bytes of the page.
fn put_reply(page: &mut [u8], filled: usize, reply: &[u8], count: usize) -> usize
    requires { ReplyFits count reply.now filled page.old }
    ensures { Added (hex (take count reply.now)) filled page.old result page.new }
{
    let put = pieces::put_hex(&mut page[filled..], &reply[..count]);
    filled + put.unwrap_or(0)
}

// Puts the reply and sets its bytes to zero, so that the reply buffer is all zero again.
fn move_reply(page: &mut [u8], filled: usize, reply: &mut [u8], count: usize) -> usize
    requires { ReplyFits count reply.old filled page.old }
    ensures { Moved count reply.old filled page.old result reply.new page.new }
{
    let at = put_reply(page, filled, reply, count);
    base_writing::clear(&mut reply[..count]);
    at
}

// What a step leaves of a frame of `size` bytes: a reply is moved to the page. `full` says that the frame is not over.
fn after_step(at: Progress, size: usize, step: Step, page: &mut [u8], reply: &mut [u8]) -> Progress
    requires { StepFits size at step reply.old page.old }
    ensures { After step size at reply.old page.old result reply.new page.new }
{
    match step {
        Step::Refused(n) => Progress {
            from: size,
            full: false,
            mark: Mark::Number(n),
            ..at
        },
        Step::Waits => Progress {
            full: false,
            mark: Mark::NoMark,
            ..at
        },
        Step::Used(used, count) => {
            let from = at.from + used;
            Progress {
                from,
                replied: step::replied_after(at.replied, count),
                filled: move_reply(page, at.filled, reply, count),
                full: from < size,
                mark: Mark::NoMark,
            }
        }
    }
}

// Serves the request at `at.from`; `full` says that the frame is not over.
fn serve_next(
    session: usize,
    held: &[u8],
    at: Progress,
    page: &mut [u8],
    places: &mut [u64],
    lent: &mut LentMut,
    reply: &mut [u8],
) -> Progress
    requires serves { Serves session held.now at.from at.filled page.old places.old reply.old }
    requires fit { Fit (lent_in lent.old) reply.old }
    requires from_in_bounds { at.from < length held.now }
    ensures same_memory { SameMemory lent.old lent.new }
    ensures next_served { NextServed session held.now at reply.old page.old (lent_in lent.old) result reply.new page.new (lent_in lent.new) }
{
    let from = at.from;
    let input = &held[from..];
    let answer = call_serve::serve_session(session, input, places, lent, reply);
    let step = step::step_of_any(input, places, answer);
    after_step(at, held.len(), step, page, reply)
}

// Whether the frame goes on: it is not over, and one more reply fits a page of `size` bytes.
#[tactic(auto, unfolding(crate::specs::Steps::goes_on))]
fn goes_on(at: Progress, size: usize) -> bool
    requires { at.filled ≤ size }
    ensures { result ≡ goes_on at size }
{
    at.full && REPLY_TEXT <= size - at.filled
}

// Serves the requests of a frame from `begun.from` on until it is over or the page is full.
pub fn serve_some(
    session: usize,
    held: &[u8],
    begun: Progress,
    page: &mut [u8],
    places: &mut [u64],
    lent: &mut LentMut,
    reply: &mut [u8],
) -> Progress
    requires serves { Serves session held.now begun.from begun.filled page.old places.old reply.old }
    requires fit { Fit (lent_in lent.old) reply.old }
    ensures same_memory { SameMemory lent.old lent.new }
    ensures fit_2 { Fit (lent_in lent.new) reply.new }
    ensures some_served { SomeServed session held.now begun.from begun.replied begun.filled page.old (lent_in lent.old) result page.new (lent_in lent.new) }
{
    let size = page.len();
    let mut at = Progress {
        full: begun.from < held.len(),
        mark: Mark::NoMark,
        ..begun
    };
    while goes_on(at, size) {
        at = serve_next(session, held, at, page, places, lent, reply);
    }
    at
}
