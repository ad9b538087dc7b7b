// Lines on standard output. Bytes are written as in a byte string: CR, LF and `\` are escaped, and a byte outside
// ASCII's printed ones is `\x` and two digits.
use resp_spec::Span;
use std::io::Stdout;

// A write that fails is passed over.
pub fn text(stdout: Stdout, bytes: &[u8]) {
    let _ = stdout.write_all(bytes);
}

pub fn number(stdout: Stdout, n: usize) {
    let _ = stdout.print(n);
}

pub fn byte(stdout: Stdout, one: u8) {
    text(stdout, &[one]);
}

fn escape(stdout: Stdout, one: u8) {
    text(stdout, &[b'\\', one]);
}

fn hex(stdout: Stdout, one: u8) {
    escape(stdout, b'x');
    let _ = print!(stdout; "{one:02x}");
}

fn escaped_byte(stdout: Stdout, one: u8) {
    // A `match`: the input tells which runs, and no function may hand a closure out.
    match one {
        b'\r' => escape(stdout, b'r'),
        b'\n' => escape(stdout, b'n'),
        b'\\' => escape(stdout, b'\\'),
        32..=126 => byte(stdout, one),
        _ => hex(stdout, one),
    }
}

pub fn escaped(stdout: Stdout, bytes: &[u8]) {
    for one in bytes {
        escaped_byte(stdout, *one);
    }
}

// What a writer put at the front of `buffer`, or `full`, and the line's end.
pub fn written(stdout: Stdout, buffer: &[u8], put: Option<usize>) {
    match put {
        Some(len) => escaped(stdout, resp_faults::part_of(buffer, Span { start: 0, len })),
        None => text(stdout, b"full"),
    }
    byte(stdout, b'\n')
}
