// The pieces of an output line: the session, the hexadecimal of each reply, and the end of the line.
ghost use Rattle.std.specs.Prelude.{◌≡◌, ◌/◌, ◌%◌, ◌<◌};
ghost use Rattle.base_writing.specs.Puts.{Puts};
ghost use Rattle.call_spec.specs.Frames.{hex, hex_digit};
ghost use Rattle.frames_lines.specs.Pieces.{head_text, number_text, mark_or_dash, end_text, malformed_text};

use base_decimal::digits;

// What ends the requests of a frame: nothing, a returned number, or a rest above 4,096 bytes.
#[derive(Clone, Copy)]
pub enum Mark {
    NoMark,
    Number(u64),
    Dropped,
}

// The digit of a number below 16.
#[tactic(auto, unfolding(call_spec::specs::Frames::hex_digit))]
fn hex_digit(n: u8) -> u8
    requires { n < 16 }
    ensures { result ≡ hex_digit n }
{
    if n <= 9 { 48 + n } else { 87 + n }
}

// Writes the hexadecimal of a reply.
pub fn put_hex(out: &mut [u8], reply: &[u8]) -> Option<usize>
    ensures { Puts (hex reply.now) out.old result out.new }
{
    if out.len() / 2 < reply.len() {
        base_writing::clear(out);
        return None;
    }
    // by index: tried with `chunks_exact_mut`, but of lent pieces a proof knows only the length when the loop is over
    for (i, byte) in reply.iter().enumerate() {
        out[i * 2] = hex_digit(*byte / 16);
        out[i * 2 + 1] = hex_digit(*byte % 16);
    }
    Some(reply.len() * 2)
}

// Writes the two digits of a session and a space.
pub fn put_session(out: &mut [u8], session: usize) -> Option<usize>
    requires { session < 100 }
    ensures { Puts (head_text session) out.old result out.new }
{
    let tens = base_writing::put_byte(out, (48 + session / 10) as u8);
    let ones = base_writing::then_byte(out, tens, (48 + session % 10) as u8);
    base_writing::then_byte(out, ones, 32)
}

// Writes `!` and a number.
fn put_number(out: &mut [u8], number: u64) -> Option<usize>
    ensures { Puts (number_text number) out.old result out.new }
{
    let mark = base_writing::put_byte(out, b'!');
    digits::then_digits(out, mark, number)
}

// Writes the mark, or `-` where there is neither a reply nor a mark.
#[tactic(auto, unfolding(crate::specs::Pieces::mark_or_dash))]
fn put_mark(out: &mut [u8], replied: bool, mark: Mark) -> Option<usize>
    ensures { Puts (mark_or_dash replied mark) out.old result out.new }
{
    // A `match`: the input tells which runs, and no function may hand a closure out.
    match mark {
        Mark::NoMark if replied => Some(0),
        Mark::NoMark => base_writing::put_byte(out, b'-'),
        Mark::Number(n) => put_number(out, n),
        Mark::Dropped => base_writing::put_byte(out, b'!'),
    }
}

// Writes the end of an output line behind its replies.
pub fn put_end(out: &mut [u8], replied: bool, mark: Mark) -> Option<usize>
    ensures { Puts (end_text replied mark) out.old result out.new }
{
    let put = put_mark(out, replied, mark);
    base_writing::then_byte(out, put, b'\n')
}

// Writes the whole answer to a line of another form.
#[tactic(auto, unfolding(crate::specs::Pieces::malformed_text))]
pub fn put_malformed(out: &mut [u8]) -> Option<usize>
    ensures { Puts malformed_text out.old result out.new }
{
    base_writing::put_bytes(out, b"?\n")
}
