// Bytes as UTF-8 text, one character or ill-formed part at a time.
#![tactic(auto)]

ghost use Rattle.std.specs.Prelude.{◌≡◌};
ghost use Rattle.resp_spec.specs.Utf8.{leads, is_utf8};
ghost use Rattle.resp_utf8.specs.Pieces.{lead_of, piece_of, Begun, NotEmpty};

// What a first byte says: a character by itself, a first byte of several, behind which as many must
// follow the next one, which has bounds, or no first byte.
#[derive(Clone, Copy)]
pub enum Lead {
    Single,
    Several(usize, u8, u8),
    Ill,
}

// What a first byte says.
#[tactic(auto, unfolding(crate::specs::Pieces::lead_of, resp_spec::specs::Utf8::leads))]
fn first_byte(byte: u8) -> Lead
    ensures { lead_of byte result ≡ leads byte }
{
    match byte {
        0..=127 => Lead::Single,
        194..=223 => Lead::Several(0, 128, 191),
        224 => Lead::Several(1, 160, 191),
        237 => Lead::Several(1, 128, 159),
        225..=239 => Lead::Several(1, 128, 191),
        240 => Lead::Several(2, 144, 191),
        241..=243 => Lead::Several(2, 128, 191),
        244 => Lead::Several(2, 128, 143),
        _ => Lead::Ill,
    }
}

// The piece at the front, whose first byte is the first of several.
fn piece_of_several(text: &[u8], more: usize, lowest: u8, highest: u8) -> Result<usize, usize>
    requires { Begun text.now 1 more lowest highest }
    ensures { result ≡ piece_of text.now }
{
    let mut left = more;
    let mut low = lowest;
    let mut high = highest;
    for n in 1..text.len() {
        if text[n] < low || high < text[n] {
            return Err(n);
        }
        if left == 0 {
            return Ok(n + 1);
        }
        left -= 1;
        low = 128;
        high = 191;
    }
    Err(text.len())
}

// The piece at the front.
#[tactic(auto, unfolding(crate::specs::Pieces::lead_of, crate::specs::Pieces::piece_of, crate::specs::Pieces::piece_from, resp_spec::specs::Utf8::decode_byte))]
pub fn piece_at(text: &[u8]) -> Result<usize, usize>
    requires { NotEmpty text.now }
    ensures { result ≡ piece_of text.now }
{
    match first_byte(text[0]) {
        Lead::Single => Ok(1),
        Lead::Several(more, low, high) => piece_of_several(text, more, low, high),
        Lead::Ill => Err(1),
    }
}

// Whether the whole text is UTF-8.
pub fn is_utf8(text: &[u8]) -> bool
    ensures { result ≡ is_utf8 text.now }
{
    let mut at = 0;
    while at < text.len() {
        match piece_at(&text[at..]) {
            Ok(n) => at += n,
            Err(_) => return false,
        }
    }
    true
}
