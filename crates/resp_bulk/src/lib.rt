// One argument of an array: a line with its length, its bytes, and CR LF.
#![tactic(auto)]

ghost use Rattle.std.specs.Prelude.{◌≡◌};
ghost use Rattle.resp_spec.specs.Steps.{Inside};
ghost use Rattle.resp_bulk.specs.Arguments.{begins_with, ArgumentIs, argument_at, argument_of_line, argument_of_size, LineFrom};

use resp_spec::line::Line;
use resp_spec::{Fault, Header, Span, line};

// What stands where an argument should: not all of it yet, a fault, or its part of the request.
#[derive(Clone, Copy)]
pub enum Argument {
    Unread,
    Faulty(Fault),
    Part(usize, usize),
}

// Whether `text` stands at the front of `s`.
fn begins_with(s: &[u8], text: &[u8]) -> bool
    ensures { result ≡ begins_with s.now text.now }
{
    s.starts_with(text)
}

// Reads the n bytes of an argument, from `at` on, and the CR LF behind them. `Inside` is about the place that is given, another at each call: no struct
// keeps it.
pub fn read_body(input: &[u8], at: usize, n: usize) -> Argument
    requires { Inside input.now at }
    ensures { ArgumentIs (argument_of_size at n input.now) input.now result }
{
    let left = input.len() - at;
    if left < 2 {
        return Argument::Unread;
    }
    if left - 2 < n {
        return Argument::Unread;
    }
    let end = at + n;
    if begins_with(&input[end..], b"\r\n") {
        return Argument::Part(at, n);
    }
    Argument::Faulty(Fault::NoLineEnd)
}

// Reads the argument whose line, at `at`, has `len` bytes of text and `used` with its end.
fn read_sized(input: &[u8], at: usize, len: usize, used: usize) -> Argument
    requires { LineFrom input.now at len used }
    ensures { ArgumentIs (argument_of_line at len used input.now) input.now result }
{
    match &input[at..at + len] {
        [] => Argument::Faulty(Fault::NoDollar(Span { start: at, len: 0 })),
        [b'$', text @ ..] => match resp_headers::read_header(Header::Bulk, at + 1, text) {
            Ok(n) => read_body(input, at + used, n as usize),
            Err(f) => Argument::Faulty(f),
        },
        _ => Argument::Faulty(Fault::NoDollar(Span { start: at, len: 1 })),
    }
}

// Reads the argument at `at`.
pub fn read_argument(input: &[u8], at: usize) -> Argument
    requires { Inside input.now at }
    ensures { ArgumentIs (argument_at at input.now) input.now result }
{
    match line::read_line(&input[at..]) {
        Line::Text(len, used) => read_sized(input, at, len, used),
        Line::Unfinished => Argument::Unread,
        Line::TooLong => Argument::Faulty(Fault::LineTooLong),
    }
}
