// The reply to a protocol error.
#![tactic(auto)]

ghost use Rattle.std.specs.Prelude.{◌≡◌, map, ◌++◌};
ghost use Rattle.base_key.specs.Bytes.{bytes};
ghost use Rattle.base_writing.specs.Puts.{Puts, Adds};
ghost use Rattle.resp_spec.specs.declared.Fault.TheVariants.{NotText, NotNumber, OverLimit, NoDollar};
ghost use Rattle.resp_spec.specs.Request.{spanned, header_name, fault_text};
ghost use Rattle.resp_spec.specs.Reply.{clean, err, encode};

use base_decimal::digits;
use resp_encode::reply;
use resp_spec::{Fault, Header, Letters, Span};

// The bytes of a part of the request; a part beyond the end has none.
pub fn part_of(input: &[u8], part: Span) -> &[u8]
    ensures { result.now ≡ spanned input.now part }
{
    let rest = &input[part.start.min(input.len())..];
    &rest[..part.len.min(rest.len())]
}

// Writes what a header counts behind what was put.
fn then_header_name(out: &mut [u8], put: Option<usize>, kind: Header) -> Option<usize>
    ensures { Adds (header_name kind) put out.old result out.new }
{
    match kind {
        Header::Multibulk => base_writing::then_bytes(out, put, b"multibulk length"),
        Header::Bulk => base_writing::then_bytes(out, put, b"bulk length"),
    }
}

// A header that is not UTF-8.
fn then_not_text(out: &mut [u8], put: Option<usize>, input: &[u8], kind: Header) -> Option<usize>
    ensures { Adds (map clean (fault_text input.now (NotText kind))) put out.old result out.new }
{
    let said = base_writing::then_bytes(out, put, b"invalid ");
    then_header_name(out, said, kind)
}

// A header that is no number, quoted.
fn then_not_number(
    out: &mut [u8],
    put: Option<usize>,
    input: &[u8],
    kind: Header,
    part: Span,
) -> Option<usize>
    ensures { Adds (map clean (fault_text input.now (NotNumber kind part))) put out.old result out.new }
{
    let said = base_writing::then_bytes(out, put, b"invalid ");
    let named = then_header_name(out, said, kind);
    let opened = base_writing::then_bytes(out, named, b" '");
    let quoted = resp_sanitize::then_clean(out, opened, part_of(input, part), Letters::AsSent);
    base_writing::then_bytes(out, quoted, b"'")
}

// A number above the limit.
fn then_over_limit(
    out: &mut [u8],
    put: Option<usize>,
    input: &[u8],
    kind: Header,
    n: u64,
) -> Option<usize>
    ensures { Adds (map clean (fault_text input.now (OverLimit kind n))) put out.old result out.new }
{
    let named = then_header_name(out, put, kind);
    let parted = base_writing::then_bytes(out, named, b" ");
    let counted = digits::then_digits(out, parted, n);
    let said = base_writing::then_bytes(out, counted, b" is over the limit of ");
    digits::then_digits(out, said, resp_headers::limit(kind))
}

// An argument's line that does not begin with `$`: its first byte, quoted.
fn then_no_dollar(out: &mut [u8], put: Option<usize>, input: &[u8], part: Span) -> Option<usize>
    ensures { Adds (map clean (fault_text input.now (NoDollar part))) put out.old result out.new }
{
    let opened = base_writing::then_bytes(out, put, b"expected '$', got '");
    let quoted = resp_sanitize::then_clean_lossy(
        out,
        opened,
        part_of(input, part),
        Letters::AsSent,
    );
    base_writing::then_bytes(out, quoted, b"'")
}

// Writes the text of a fault behind what was put.
#[tactic(auto, unfolding(resp_spec::specs::Request::fault_text))]
fn then_fault(out: &mut [u8], put: Option<usize>, input: &[u8], fault: Fault) -> Option<usize>
    ensures { Adds (map clean (fault_text input.now fault)) put out.old result out.new }
{
    // A `match`: the input tells which runs, and no function may hand a closure out.
    match fault {
        Fault::LineTooLong => base_writing::then_bytes(out, put, b"line too long"),
        Fault::NotText(kind) => then_not_text(out, put, input, kind),
        Fault::NotNumber(kind, part) => then_not_number(out, put, input, kind, part),
        Fault::OverLimit(kind, n) => then_over_limit(out, put, input, kind, n),
        Fault::NoDollar(part) => then_no_dollar(out, put, input, part),
        Fault::NoLineEnd => base_writing::then_bytes(out, put, b"bulk string not followed by CRLF"),
    }
}

// Writes the reply to a fault in `input`.
pub fn put_fault(out: &mut [u8], input: &[u8], fault: Fault) -> Option<usize>
    ensures { Puts (encode (err (bytes "Protocol error: " ++ fault_text input.now fault))) out.old result out.new }
{
    let named = base_writing::put_bytes(out, b"-ERR Protocol error: ");
    let told = then_fault(out, named, input, fault);
    reply::then_crlf(out, told)
}
