// The header of an array or of an argument: the length that it says, within its limit.
#![tactic(auto)]

ghost use Rattle.std.specs.Prelude.{◌≡◌, length};
ghost use Rattle.base_number.specs.Number.{length_of};
ghost use Rattle.resp_spec.specs.Request.{header_of, header_within, limit_of, span};

use base_number::header;
use resp_spec::{Fault, Header, Span};

// The most that a header may say.
pub fn limit(kind: Header) -> u64
    ensures { result ≡ limit_of kind }
{
    match kind {
        Header::Multibulk => 1048576,
        Header::Bulk => 67108864,
    }
}

// Reads a header's length from a text that starts at `start` in the request.
#[tactic(auto, unfolding(resp_spec::specs::Request::header_within))]
fn read_length(kind: Header, start: usize, text: &[u8]) -> Result<u64, Fault>
    ensures { result ≡ header_within kind (span start (length text.now)) (length_of text.now) }
{
    match header::header_length(text) {
        Some(n) if n <= limit(kind) => Ok(n),
        Some(n) => Err(Fault::OverLimit(kind, n)),
        None => {
            let len = text.len();
            Err(Fault::NotNumber(kind, Span { start, len }))
        }
    }
}

// Reads a header, whose text starts at `start` in the request.
#[tactic(auto, unfolding(resp_spec::specs::Request::header_of))]
pub fn read_header(kind: Header, start: usize, text: &[u8]) -> Result<u64, Fault>
    ensures { result ≡ header_of kind start text.now }
{
    if resp_utf8::is_utf8(text) {
        return read_length(kind, start, text);
    }
    Err(Fault::NotText(kind))
}
