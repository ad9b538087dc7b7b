// The replies that hold values: a value or nil, and an array of them.
ghost use Rattle.std.specs.Prelude.{◌-◌, ◌≤◌};
ghost use Rattle.base_writing.specs.Puts.{Puts, Adds};
ghost use Rattle.resp_spec.specs.Reply.{encode, array, bulk_or};
ghost use Rattle.command_spec.specs.Places.{arguments_at};
ghost use Rattle.command_lookup.specs.Reads.{read_through};
ghost use Rattle.command_lookup.specs.See.{value_replies};

use crate::reader::Reader;
use command_spec::request::Request;
use resp_encode::reply;

// Writes the value of `name` behind what was put, or nil: the value is written from where it lies.
pub fn then_value(out: &mut [u8], put: Option<usize>, reader: &Reader, name: &[u8]) -> Option<usize>
    ensures { Adds (encode (bulk_or (read_through reader.now name.now))) put out.old result out.new }
{
    match reader.get(name) {
        Some(value) => resp_items::then_bulk(out, put, value),
        None => resp_items::then_nil(out, put),
    }
}

// Writes the array of the values of the keys from place `from` on, up to one that does not fit.
fn put_values(out: &mut [u8], reader: &Reader, request: &Request, from: usize) -> Option<usize>
    requires { from ≤ request.now.count }
    ensures { Puts (encode (array (value_replies (read_through reader.now) (arguments_at from (request.now.count - from) request.now.places.now request.now.input.now)))) out.old result out.new }
{
    let mut put = reply::put_head(out, b'*', (request.count - from) as u64);
    for i in from..request.count {
        put?;
        put = then_value(out, put, reader, request.argument(i));
    }
    put
}

// Writes it behind what was put.
pub fn then_values(
    out: &mut [u8],
    put: Option<usize>,
    reader: &Reader,
    request: &Request,
    from: usize,
) -> Option<usize>
    requires { from ≤ request.now.count }
    ensures { Adds (encode (array (value_replies (read_through reader.now) (arguments_at from (request.now.count - from) request.now.places.now request.now.input.now)))) put out.old result out.new }
{
    // A closure in `base_writing::then` was tried: of one that captures a struct with borrowed fields the proof knows no `ensures`.
    let at = base_writing::place(put, out.len());
    let next = put_values(&mut out[at..], reader, request, from);
    base_writing::joined(out, put, next)
}
