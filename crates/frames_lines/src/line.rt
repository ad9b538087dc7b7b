// An input line: two decimal digits of session, a space, 1 to 4,096 bytes of lower-case hexadecimal.
ghost use Rattle.std.specs.Prelude.{◌≡◌, ◌*◌, ◌≤◌, ◌<◌, length};
ghost use Rattle.std.specs.Option.{IfSome};
ghost use Rattle.call_spec.specs.Frames.{hex_value};
ghost use Rattle.frames_lines.specs.Line.{pair_of, Decodes, head_of, Room, LineRead};

// The value of a lower-case hexadecimal digit. `to_digit` of char takes upper case too, and so needs a test before it.
#[tactic(auto, unfolding(call_spec::specs::Frames::hex_value))]
fn hex_value(byte: u8) -> Option<u8>
    ensures value { result ≡ hex_value byte }
    ensures upper_bound { IfSome result (λ v. v < 16) }
{
    match byte {
        b'0'..=b'9' => Some(byte - b'0'),
        b'a'..=b'f' => Some(byte - b'a' + 10),
        _ => None,
    }
}

// The byte of two digits.
#[tactic(auto, unfolding(crate::specs::Line::pair_of))]
fn pair_byte(high: u8, low: u8) -> Option<u8>
    ensures { result ≡ pair_of (hex_value high) (hex_value low) }
{
    let h = hex_value(high)?;
    let l = hex_value(low)?;
    Some(h * 16 + l)
}

// Writes the bytes of a hexadecimal text at the front of `out`.
fn decode(text: &[u8], out: &mut [u8]) -> Option<usize>
    requires { length text.now ≤ 2 * length out.old }
    ensures { Decodes text.now out.old result out.new }
{
    let count = text.len() / 2;
    if count * 2 < text.len() {
        return None;
    }
    // By index, as in `put_hex`, where another form was tried.
    for n in 0..count {
        out[n] = pair_byte(text[n * 2], text[n * 2 + 1])?;
    }
    Some(count)
}

// The session of a line of 2 to 8,192 digits behind two decimal digits and a space.
pub fn read_head(line: &[u8]) -> Option<usize>
    ensures { result ≡ head_of line.now }
{
    if line.len() < 5 {
        return None;
    }
    if 8195 < line.len() {
        return None;
    }
    let tens = line[0];
    let ones = line[1];
    if !tens.is_ascii_digit() {
        return None;
    }
    if !ones.is_ascii_digit() {
        return None;
    }
    if line[2] != b' ' {
        return None;
    }
    Some((tens - b'0') as usize * 10 + (ones - b'0') as usize)
}

// Reads a line: its bytes are written behind the `at` bytes that the session holds.
pub fn read_line(line: &[u8], held: &mut [u8], at: usize) -> Option<(usize, usize)>
    requires { Room at held.old }
    ensures { LineRead line.now at held.old result held.new }
{
    let session = read_head(line)?;
    let count = decode(&line[3..], &mut held[at..])?;
    Some((session, count))
}
