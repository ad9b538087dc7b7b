// A reply, written item by item behind one another into a buffer whose size is the record's first byte. An item is a record.
use crate::{lines, records};
use base_number::integer;
use command_spec::Fixed;
use resp_encode::reply;
use resp_spec::Letters;
use std::io::Stdout;

// A number, or the sum of two: each is a record.
fn number(bytes: &[u8]) -> Option<i64> {
    let (one, rest) = records::split(bytes)?;
    let x = integer::int_arg(one.bytes)?;
    let Some((two, _)) = records::split(rest) else {
        return Some(x);
    };
    match integer::int_arg(two.bytes) {
        Some(y) => integer::checked_sum(x, y),
        None => Some(x),
    }
}

// An integer reply for `:`, and otherwise the digits alone.
fn put_number(kind: u8, out: &mut [u8], number: Option<i64>) -> Option<usize> {
    let Some(z) = number else {
        return base_writing::put_bytes(out, b"none");
    };
    if kind == b':' {
        return reply::put_int(out, z);
    }
    base_decimal::put_decimal(out, z)
}

// A simple string or an error, behind its mark.
fn put_line(mark: u8, out: &mut [u8], text: &[u8]) -> Option<usize> {
    let marked = base_writing::put_byte(out, mark);
    let line = resp_sanitize::then_clean(out, marked, text, Letters::AsSent);
    reply::then_crlf(out, line)
}

fn put_fixed(kind: u8, out: &mut [u8]) -> Option<usize> {
    // A `match`: the input tells which runs, and no function may hand a closure out.
    match kind {
        b'_' => resp_items::then_nil(out, Some(0)),
        b'0' => reply::put_nil_array(out),
        b'c' => reply::put_bulk_digits(out, 18446744073709551615),
        _ => command_errors::put_fixed(out, Fixed::ExecAbort),
    }
}

fn put_quoted(kind: u8, out: &mut [u8], text: &[u8]) -> Option<usize> {
    // A `match`: the input tells which runs, and no function may hand a closure out.
    match kind {
        b'u' => command_errors::put_unknown(out, text),
        b'q' => command_errors::put_not_queueable(out, text),
        b'a' => command_errors::put_arity(out, text),
        _ => resp_sanitize::put_clean_lossy(out, text, Letters::AsSent),
    }
}

// The head of an array counts the bytes of its item.
fn put_item(kind: u8, out: &mut [u8], text: &[u8]) -> Option<usize> {
    // A `match`: the input tells which runs, and no function may hand a closure out.
    match kind {
        b'+' | b'-' => put_line(kind, out, text),
        b'$' => reply::put_bulk(out, text),
        b'*' => reply::put_head(out, b'*', text.len() as u64),
        b':' | b'n' => put_number(kind, out, number(text)),
        b'_' | b'0' | b'c' | b'x' => put_fixed(kind, out),
        _ => put_quoted(kind, out, text),
    }
}

// The reply into the whole of `out`, and the line's end.
fn reply_in(stdout: Stdout, out: &mut [u8], bytes: &[u8]) {
    let mut put = Some(0);
    let mut rest = bytes;
    while let Some((one, behind)) = records::split(rest) {
        let from = base_writing::place(put, out.len());
        let next = put_item(one.kind, &mut out[from..], one.bytes);
        put = base_writing::joined(out, put, next);
        rest = behind;
    }
    lines::written(stdout, out, put)
}

pub fn reply(stdout: Stdout, bytes: &[u8]) {
    let mut buffer = [0u8; 256];
    if let [size, items @ ..] = bytes {
        let spare = 256 - usize::from(*size);
        reply_in(stdout, &mut buffer[spare..], items);
    }
}
