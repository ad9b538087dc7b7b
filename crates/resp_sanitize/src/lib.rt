// Text of simple and error replies: CR and LF become spaces, and what is not UTF-8 becomes U+FFFD.
#![tactic(auto)]

ghost use Rattle.std.specs.Prelude.{◌≡◌, map};
ghost use Rattle.base_writing.specs.Puts.{Puts, Adds};
ghost use Rattle.resp_spec.specs.Reply.{clean};
ghost use Rattle.resp_spec.specs.Letters.{upper, lower, shown_as};
ghost use Rattle.resp_spec.specs.Utf8.{lossy, replacement};

use resp_spec::Letters;

// A space for CR and LF, which no method of the library gives.
fn clean_byte(byte: u8) -> u8
    ensures { result ≡ clean byte }
{
    match byte {
        b'\r' | b'\n' => b' ',
        _ => byte,
    }
}

// A capital for a small letter: the library's method, which the definitions call `upper`.
pub fn upper_byte(byte: u8) -> u8
    ensures { result ≡ upper byte }
{
    byte.to_ascii_uppercase()
}

// A byte as it is shown.
fn shown_byte(byte: u8, letters: Letters) -> u8
    ensures { result ≡ shown_as letters byte }
{
    // An enum and no closure: the contracts say by it how the text is shown.
    match letters {
        Letters::AsSent => clean_byte(byte),
        Letters::Capitals => clean_byte(upper_byte(byte)),
        Letters::Small => clean_byte(byte.to_ascii_lowercase()),
    }
}

// Writes a text in which CR and LF are spaces.
pub fn put_clean(out: &mut [u8], text: &[u8], letters: Letters) -> Option<usize>
    ensures { Puts (map (shown_as letters) text.now) out.old result out.new }
{
    if out.len() < text.len() {
        base_writing::clear(out);
        return None;
    }
    for (i, byte) in text.iter().enumerate() {
        out[i] = shown_byte(*byte, letters);
    }
    Some(text.len())
}

// Writes it behind what was put.
pub fn then_clean(
    out: &mut [u8],
    put: Option<usize>,
    text: &[u8],
    letters: Letters,
) -> Option<usize>
    ensures { Adds (map (shown_as letters) text.now) put out.old result out.new }
{
    base_writing::then(out, put, |rest| put_clean(rest, text, letters))
}

// Writes U+FFFD behind what was put.
fn then_replacement(out: &mut [u8], put: Option<usize>) -> Option<usize>
    ensures { Adds replacement put out.old result out.new }
{
    base_writing::then_bytes(out, put, b"\xEF\xBF\xBD")
}

// Writes a text piece by piece: a character with CR and LF as spaces, and U+FFFD for any other piece.
pub fn put_clean_lossy(out: &mut [u8], text: &[u8], letters: Letters) -> Option<usize>
    ensures { Puts (map (shown_as letters) (lossy text.now)) out.old result out.new }
{
    let mut put = Some(0);
    let mut at = 0;
    while at < text.len() {
        put?;
        match resp_utf8::piece_at(&text[at..]) {
            Ok(n) => {
                put = then_clean(out, put, &text[at..at + n], letters);
                at += n;
            }
            Err(n) => {
                put = then_replacement(out, put);
                at += n;
            }
        }
    }
    put
}

// Writes it behind what was put.
pub fn then_clean_lossy(
    out: &mut [u8],
    put: Option<usize>,
    text: &[u8],
    letters: Letters,
) -> Option<usize>
    ensures { Adds (map (shown_as letters) (lossy text.now)) put out.old result out.new }
{
    base_writing::then(out, put, |rest| put_clean_lossy(rest, text, letters))
}
