// A writer for each kind of reply, at the front of the buffer that it is lent.
ghost use Rattle.base_writing.specs.Puts.{Puts, Adds};
ghost use Rattle.base_number.specs.Decimal.{digits};
ghost use Rattle.resp_spec.specs.Reply.{Integer, BulkString, NilArray, crlf, encode, head};

use base_decimal::digits;

// Writes CR LF behind what was put.
pub fn then_crlf(out: &mut [u8], put: Option<usize>) -> Option<usize>
    ensures { Adds crlf put out.old result out.new }
{
    base_writing::then_bytes(out, put, b"\r\n")
}

// A whole number.
pub fn put_int(out: &mut [u8], z: i64) -> Option<usize>
    ensures { Puts (encode (Integer z)) out.old result out.new }
{
    let mark = base_writing::put_byte(out, b':');
    let line = base_decimal::then_decimal(out, mark, z);
    then_crlf(out, line)
}

// The line in front of a bulk string (`$`) or an array (`*`), with its count.
pub fn put_head(out: &mut [u8], kind: u8, count: u64) -> Option<usize>
    ensures { Puts (head kind count) out.old result out.new }
{
    let mark = base_writing::put_byte(out, kind);
    let line = digits::then_digits(out, mark, count);
    then_crlf(out, line)
}

// A bulk string.
pub fn put_bulk(out: &mut [u8], text: &[u8]) -> Option<usize>
    ensures { Puts (encode (BulkString text.now)) out.old result out.new }
{
    let line = put_head(out, b'$', text.len() as u64);
    let body = base_writing::then_bytes(out, line, text);
    then_crlf(out, body)
}

// A number as a bulk string, as a cursor is.
pub fn put_bulk_digits(out: &mut [u8], n: u64) -> Option<usize>
    ensures { Puts (encode (BulkString (digits n))) out.old result out.new }
{
    let line = put_head(out, b'$', digits::digit_count(n));
    let body = digits::then_digits(out, line, n);
    then_crlf(out, body)
}

// No array.
#[tactic(auto, unfolding(resp_spec::specs::Reply::encode))]
pub fn put_nil_array(out: &mut [u8]) -> Option<usize>
    ensures { Puts (encode NilArray) out.old result out.new }
{
    base_writing::put_bytes(out, b"*-1\r\n")
}
