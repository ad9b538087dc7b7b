// Reading one request: an array of arguments, or an inline line.
ghost use Rattle.std.specs.Prelude.{◌/◌, length, take, drop};
ghost use Rattle.resp_spec.specs.Request.{line, read_arguments, read_array, read_request};
ghost use Rattle.resp_spec.specs.Steps.{ReadIs};
ghost use Rattle.resp_parse.specs.Requests.{ArgumentsIn, ArrayLine};

use resp_bulk::Argument;
use resp_spec::line::Line;
use resp_spec::{Fault, Header, Read, inline, line, table};

// Reads `count` arguments, from `from` on. `places` is written here, so it is no part of a `Request` yet.
fn read_arguments(input: &[u8], places: &mut [u64], count: usize, from: usize) -> Read
    requires { ArgumentsIn input.now places.old count from }
    ensures { ReadIs (read_arguments count from (drop from input.now)) result places.new }
{
    let mut at = from;
    for i in 0..count {
        match resp_bulk::read_argument(input, at) {
            Argument::Unread => return Read::Wait,
            Argument::Faulty(f) => return Read::Faulty(f),
            Argument::Part(start, len) => {
                table::put_place(places, i, start, len);
                at = start + len + 2;
            }
        }
    }
    Read::Whole(count, at)
}

// Reads the array whose first line has `len` bytes of text and takes `used` with its end.
fn read_array(input: &[u8], places: &mut [u64], len: usize, used: usize) -> Read
    requires { ArrayLine input.now len used }
    ensures { ReadIs (read_array (length places.old / 2) input.now (line (take len input.now) used)) result places.new }
{
    match resp_headers::read_header(Header::Multibulk, 1, &input[1..len]) {
        Ok(n) => {
            let count = n as usize;
            if places.len() / 2 < count {
                return Read::TooMany;
            }
            read_arguments(input, places, count, used)
        }
        Err(f) => Read::Faulty(f),
    }
}

// Reads the request at the front of `input`. Where it is whole, the start and the length of each
// argument stand in the first words of `places`; the rest of that table is working memory.
pub fn read(input: &[u8], places: &mut [u64]) -> Read
    ensures { ReadIs (read_request (length places.old / 2) input.now) result places.new }
{
    let [first, ..] = input else {
        return Read::Wait;
    };
    match line::read_line(input) {
        Line::Text(len, used) if *first == b'*' => read_array(input, places, len, used),
        Line::Text(len, used) => inline::read_words(&input[..len], places, used),
        Line::Unfinished => Read::Wait,
        Line::TooLong => Read::Faulty(Fault::LineTooLong),
    }
}
