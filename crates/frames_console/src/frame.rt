// A line: its answer is begun behind the bytes of the page that are in use, and ended behind the replies.
ghost use Rattle.std.specs.Prelude.{◌≡◌, ◌<◌};
ghost use Rattle.frames_lines.specs.Pieces.{MarkFits, head_text, end_text, malformed_text};
ghost use Rattle.frames_console.specs.Page.{Added, Free};
ghost use Rattle.frames_lines.specs.Held.{RestAt};
ghost use Rattle.frames_console.specs.Lines.{refused_text, mark_kept, Begins, Ends};

use crate::serve::Progress;
use frames_lines::held::Held;
use frames_lines::pieces;
use frames_lines::pieces::Mark;

// A line whose whole answer is put, with the bytes of the page in use; or a frame to serve: its session, the end of its bytes in the
// session's part, and the bytes of the page in use. No `Result`: neither is a failure.
#[derive(Clone, Copy)]
pub enum Begun {
    Answered(usize),
    Serve(usize, usize, usize),
}

// The writers below ask for 64 free bytes in front of the session and for 32 behind it: no one field of a struct would say both.

// Puts the answer to a line of another form.
fn add_malformed(page: &mut [u8], filled: usize) -> usize
    requires { Free 32 filled page.old }
    ensures { Added malformed_text filled page.old result page.new }
{
    let put = pieces::put_malformed(&mut page[filled..]);
    filled + put.unwrap_or(0)
}

// Puts the session of a line.
fn add_session(page: &mut [u8], filled: usize, session: usize) -> usize
    requires free { Free 32 filled page.old }
    requires session_bound { session < 100 }
    ensures { Added (head_text session) filled page.old result page.new }
{
    let put = pieces::put_session(&mut page[filled..], session);
    filled + put.unwrap_or(0)
}

// Puts the end of a line.
fn add_end(page: &mut [u8], filled: usize, replied: bool, mark: Mark) -> usize
    requires free { Free 32 filled page.old }
    requires mark_fits { MarkFits mark }
    ensures { Added (end_text replied mark) filled page.old result page.new }
{
    let put = pieces::put_end(&mut page[filled..], replied, mark);
    filled + put.unwrap_or(0)
}

// Puts the answer to a frame of a session above 15.
fn add_refused(page: &mut [u8], filled: usize, session: usize) -> usize
    requires free { Free 64 filled page.old }
    requires session_bound { session < 100 }
    ensures { Added (refused_text session) filled page.old result page.new }
{
    let at = add_session(page, filled, session);
    add_end(page, at, false, Mark::Number(1))
}

// Reads a line and begins its answer; a frame's bytes are written behind those that its session holds.
pub fn begin(line: &[u8], page: &mut [u8], filled: usize, held: &mut Held) -> Begun
    requires { Free 64 filled page.old }
    ensures same_counts { held.new.counts ≡ held.old.counts }
    ensures begins { Begins line.now filled page.old held.old.counts held.old.bytes result page.new held.new.bytes }
{
    match held.read_frame(line) {
        None => Begun::Answered(add_malformed(page, filled)),
        Some((session, count)) => {
            if session < 16 {
                let to = held.count_at(session) + count;
                return Begun::Serve(session, to, add_session(page, filled, session));
            }
            Begun::Answered(add_refused(page, filled, session))
        }
    }
}

// A rest above 4,096 bytes takes the place of the mark.
#[tactic(auto, unfolding(crate::specs::Lines::mark_kept))]
fn mark_after(mark: Mark, kept: Option<usize>) -> Mark
    ensures { result ≡ mark_kept mark kept }
{
    match kept {
        Some(_) => mark,
        None => Mark::Dropped,
    }
}

// Keeps the rest of a frame, whose bytes end at `to` in the session's part, and ends its line.
pub fn end(page: &mut [u8], at: Progress, held: &mut Held, session: usize, to: usize) -> usize
    requires rest_at { RestAt session at.from to }
    requires free { Free 64 at.filled page.old }
    requires mark_fits { MarkFits at.mark }
    ensures { Ends session to at page.old held.old.counts held.old.bytes result page.new held.new.counts held.new.bytes }
{
    let kept = held.keep(session, at.from, to);
    add_end(page, at.filled, at.replied, mark_after(at.mark, kept))
}
