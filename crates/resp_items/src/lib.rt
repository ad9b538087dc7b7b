// An item behind what was put: its writer is lent the rest of the buffer.
#![tactic(auto)]

ghost use Rattle.base_writing.specs.Puts.{Adds};
ghost use Rattle.base_number.specs.Decimal.{digits};
ghost use Rattle.resp_spec.specs.Reply.{Integer, BulkString, Nil, encode};

use resp_encode::reply;

pub fn then_int(out: &mut [u8], put: Option<usize>, z: i64) -> Option<usize>
    ensures { Adds (encode (Integer z)) put out.old result out.new }
{
    base_writing::then(out, put, |rest| reply::put_int(rest, z))
}

pub fn then_bulk(out: &mut [u8], put: Option<usize>, text: &[u8]) -> Option<usize>
    ensures { Adds (encode (BulkString text.now)) put out.old result out.new }
{
    base_writing::then(out, put, |rest| reply::put_bulk(rest, text))
}

pub fn then_bulk_digits(out: &mut [u8], put: Option<usize>, n: u64) -> Option<usize>
    ensures { Adds (encode (BulkString (digits n))) put out.old result out.new }
{
    base_writing::then(out, put, |rest| reply::put_bulk_digits(rest, n))
}

#[tactic(auto, unfolding(resp_spec::specs::Reply::encode))]
pub fn then_nil(out: &mut [u8], put: Option<usize>) -> Option<usize>
    ensures { Adds (encode Nil) put out.old result out.new }
{
    base_writing::then_bytes(out, put, b"$-1\r\n")
}
