// The program `frames`: one line in, one line out.
#![tactic(auto)]

ghost use Rattle.std.specs.Prelude.{◌+◌, ◌-◌, ◌*◌, ◌<◌, ◌≤◌, min, ◌≡◌, drop, length, take};
ghost use Rattle.base_key.specs.Bytes.{part};
ghost use Rattle.call_spec.specs.Frames.{open_console};
ghost use Rattle.call_numbers.specs.Lending.{lent_in, SameMemory};
ghost use Rattle.frames_lines.specs.Rest.{moved};
ghost use Rattle.frames_console.specs.Answers.{AllAnswered, LineAnswered, Output, TurnsServed, console_in, room_made};
ghost use Rattle.frames_console.specs.Steps.{Fit};
ghost use Rattle.frames.specs.Bounds.{Served};
ghost use Rattle.frames.specs.Input.{input_left, line_length};

mod cursor;

use call_numbers::lent::LentMut;
use cursor::Cursor;
use frames_console::frame::Begun;
use frames_console::serve::Progress;
use frames_console::{frame, serve};
use frames_lines::held::Held;
use frames_lines::pieces::Mark;
use frames_lines::rest;
use registry::open;
use std::io::{Read, Stdin, Stdout};

// The longest line of the form has 8,195 bytes: of a longer one 8,196 are kept at most, and it is answered `?`.
const LINE: usize = 8196;

const PART: usize = 65536;

const PAGE: usize = 131072;

const VERSIONS: usize = 1024;

const STORE_WORDS: usize = 4101;

const STORE_BYTES: usize = 32768;

const SESSION_WORDS: usize = 10304;

const SESSION_BYTES: usize = 163840;

// Writes the page out where fewer than `need` of its bytes are free; a write that fails is passed over.
#[tactic(auto, unfolding(frames_console::specs::Answers::room_made))]
fn make_room(stdout: Stdout, page: &[u8; PAGE], filled: usize, need: usize) -> usize
    requires filled_bound { filled ≤ 131072 }
    requires need_bound { need ≤ 131072 }
    ensures need_bound_2 { result + need ≤ 131072 }
    ensures value { result ≡ room_made 131072 filled need }
{
    if need <= PAGE - filled {
        return filled;
    }
    let _ = stdout.write_all(&page[..filled]);
    0
}

// Serves the requests of a frame, whose bytes end at `to` in the session's part; the page is written out between turns, and has room for the line's end.
fn serve_turns(
    stdout: Stdout,
    session: usize,
    to: usize,
    filled: usize,
    held: &[u8],
    page: &mut [u8; PAGE],
    places: &mut [u64; 2048],
    lent: &mut LentMut,
    reply: &mut [u8; 32768],
) -> Progress
    requires session_bound { session < 16 }
    requires to_bound { to ≤ 8192 }
    requires filled_bound { filled ≤ 131072 }
    requires held_len { length held.now ≡ 131072 }
    requires fit { Fit (lent_in lent.old) reply.old }
    ensures same_memory { SameMemory lent.old lent.new }
    ensures fit_2 { Fit (lent_in lent.new) reply.new }
    ensures served { Served to result }
    ensures turns_served { TurnsServed session (part (session * 8192) to held.now) filled page.old (lent_in lent.old) result page.new (lent_in lent.new) }
{
    let start = session * 8192;
    let end = start + to;
    let mut at = Progress {
        from: 0,
        replied: false,
        filled,
        full: true,
        mark: Mark::NoMark,
    };
    while at.full {
        at.filled = make_room(stdout, page, at.filled, 65536);
        at = serve::serve_some(session, &held[start..end], at, page, places, lent, reply);
    }
    at.filled = make_room(stdout, page, at.filled, 64);
    at
}

// Answers a line.
fn answer_line(
    stdout: Stdout,
    line: &[u8],
    filled: usize,
    page: &mut [u8; PAGE],
    held: &mut Held,
    places: &mut [u64; 2048],
    lent: &mut LentMut,
    reply: &mut [u8; 32768],
) -> usize
    requires filled_bound { filled + 64 ≤ 131072 }
    requires fit { Fit (lent_in lent.old) reply.old }
    ensures same_memory { SameMemory lent.old lent.new }
    ensures fit_2 { Fit (lent_in lent.new) reply.new }
    ensures upper_bound { result ≤ 131072 }
    ensures line_answered { LineAnswered line.now (console_in (lent_in lent.old) held.old.counts held.old.bytes) filled page.old (console_in (lent_in lent.new) held.new.counts held.new.bytes) result page.new }
{
    match frame::begin(line, page, filled, held) {
        Begun::Answered(n) => n,
        Begun::Serve(session, to, n) => {
            let at = serve_turns(
                stdout,
                session,
                to,
                n,
                &held.bytes,
                page,
                places,
                lent,
                reply,
            );
            frame::end(page, at, held, session, to)
        }
    }
}

// The place of the first LF from `from` on, or `got`.
fn line_end(part: &[u8], from: usize, got: usize) -> usize
    requires from_le_got { from ≤ got }
    requires got_in_bounds { got ≤ length part.now }
    ensures lower_bound { from ≤ result }
    ensures upper_bound { result ≤ got }
    ensures value { result ≡ from + line_length (take (got - from) (drop from part.now)) }
{
    let length = part[from..got].iter().position(|byte| *byte == b'\n');
    from + length.unwrap_or(got - from)
}

// How many of the bytes of a line are kept.
fn kept_of(size: usize) -> usize
    ensures { result ≡ min size 8196 }
{
    size.min(LINE)
}

// Moves what is kept of the line at hand to the front of the part.
fn keep_line(part: &mut [u8; PART], from: usize, got: usize) -> usize
    requires from_le_got { from ≤ got }
    requires got_bound { got ≤ 65536 }
    ensures value { result ≡ min (got - from) 8196 }
    ensures part_after { part.new ≡ moved from (from + result) part.old }
{
    let kept = kept_of(got - from);
    rest::move_down(part, from, from + kept);
    kept
}

// Reads behind the first `kept` bytes, and gives how many bytes were read; a read that fails ends the input.
fn read_behind(mut stdin: Stdin, part: &mut [u8], kept: usize) -> usize
    requires { kept ≤ length part.old }
    ensures { kept + result ≤ length part.new }
{
    stdin.read(&mut part[kept..]).unwrap_or(0)
}

// The end of the input ends a line that has bytes.
fn end_input(part: &mut [u8; PART], kept: usize, filled: usize) -> Cursor
    requires kept_bound { kept ≤ 8196 }
    requires filled_bound { filled + 64 ≤ 131072 }
    ensures reads_value { result.reads ≡ 0 }
    ensures filled_value { result.filled ≡ filled }
{
    if kept == 0 {
        return Cursor {
            from: 0,
            end: 0,
            got: 0,
            filled,
            reads: 0,
        };
    }
    part[kept] = 10;
    Cursor {
        from: 0,
        end: kept,
        got: kept + 1,
        filled,
        reads: 0,
    }
}

// Writes the page out, and reads on behind what is kept of the line at hand.
fn read_on(
    stdin: Stdin,
    stdout: Stdout,
    part: &mut [u8; PART],
    page: &[u8; PAGE],
    at: Cursor,
) -> Cursor
    requires reads_nonzero { 0 < at.reads }
    ensures reads_lt_reads { result.reads < at.reads }
    ensures filled_value { result.filled ≡ room_made 131072 at.filled 131072 }
{
    let filled = make_room(stdout, page, at.filled, PAGE);
    let kept = keep_line(part, at.from, at.got);
    let count = read_behind(stdin, part, kept);
    if count == 0 {
        return end_input(part, kept, filled);
    }
    Cursor {
        from: 0,
        end: kept,
        got: kept + count,
        filled,
        reads: at.reads - 1,
    }
}

// Finds where the line at hand ends in what is read.
fn find_end(part: &[u8; PART], at: Cursor) -> Cursor
    ensures reads_value { result.reads ≡ at.reads }
    ensures filled_value { result.filled ≡ at.filled }
    ensures result_value { input_left result ≡ input_left at }
{
    Cursor {
        from: at.from,
        end: line_end(part, at.end, at.got),
        got: at.got,
        filled: at.filled,
        reads: at.reads,
    }
}

// Goes on to the end of the line at hand; a line that ends at `got` is none.
fn next_line(
    stdin: Stdin,
    stdout: Stdout,
    part: &mut [u8; PART],
    page: &[u8; PAGE],
    at: Cursor,
) -> Cursor
    ensures result_bound { input_left result ≤ input_left at }
    ensures output { Output (take at.filled page.now) result.filled page.now }
{
    let mut next = find_end(part, at);
    while 0 < next.reads && next.got <= next.end {
        let more = read_on(stdin, stdout, part, page, next);
        next = find_end(part, more);
    }
    next
}

// Goes behind the line at hand, which is answered, and makes room for the next one's.
fn behind(stdout: Stdout, page: &[u8; PAGE], at: Cursor, filled: usize) -> Cursor
    requires end_lt_got { at.end < at.got }
    requires filled_bound { filled ≤ 131072 }
    ensures result_bound { input_left result < input_left at }
    ensures filled_value { result.filled ≡ room_made 131072 filled 64 }
{
    let start = at.end + 1;
    Cursor {
        from: start,
        end: start,
        got: at.got,
        filled: make_room(stdout, page, filled, 64),
        reads: at.reads,
    }
}

// Answers the lines of the input, and gives the bytes of the page in use; a last line without LF is a line.
fn answer_all(
    stdin: Stdin,
    stdout: Stdout,
    part: &mut [u8; PART],
    page: &mut [u8; PAGE],
    held: &mut Held,
    places: &mut [u64; 2048],
    lent: &mut LentMut,
    reply: &mut [u8; 32768],
) -> usize
    requires fit { Fit (lent_in lent.old) reply.old }
    requires held_value { console_in (lent_in lent.old) held.old.counts held.old.bytes ≡ open_console }
    ensures same_memory { SameMemory lent.old lent.new }
    ensures upper_bound { result ≤ 131072 }
    ensures all_answered { AllAnswered (console_in (lent_in lent.new) held.new.counts held.new.bytes) result page.new }
{
    let first = Cursor {
        from: 0,
        end: 0,
        got: 0,
        filled: 0,
        reads: 18446744073709551615,
    };
    let mut at = next_line(stdin, stdout, part, page, first);
    while at.end < at.got {
        let filled = answer_line(
            stdout,
            &part[at.from..at.end],
            at.filled,
            page,
            held,
            places,
            lent,
            reply,
        );
        let next = behind(stdout, page, at, filled);
        at = next_line(stdin, stdout, part, page, next);
    }
    at.filled
}

fn main(rt: HostRuntime) {
    let stdout = rt.stdout();
    let mut part = [0u8; PART];
    let mut page = [0u8; PAGE];
    let mut held = Held {
        counts: [0u64; 16],
        bytes: [0u8; 131072],
    };
    let mut places = [0u64; 2048];
    let mut words = [0u64; STORE_WORDS];
    let mut bytes = [0u8; STORE_BYTES];
    let mut swords = [0u64; SESSION_WORDS];
    let mut sbytes = [0u8; SESSION_BYTES];
    let mut reply = [0u8; 32768];
    if open::open(&mut words, &bytes, 0, VERSIONS, STORE_BYTES).is_err() {
        return;
    }
    let lent = &mut LentMut {
        words: &mut words,
        bytes: &mut bytes,
        session_words: &mut swords,
        session_bytes: &mut sbytes,
    };
    let filled = answer_all(
        rt.stdin(),
        stdout,
        &mut part,
        &mut page,
        &mut held,
        &mut places,
        lent,
        &mut reply,
    );
    make_room(stdout, &page, filled, PAGE);
}
