// Stored requests, readings of document 01 that are run and not proved, and published examples, each a record of `stdin`.
// `stdout` has the answers of document 01, of the Rust, and of the published pages: `reference/make_examples.py` tells which.
#![tactic(auto)]

ghost use Rattle.std.specs.Prelude.{◌≤◌, length};

mod lines;
mod records;
mod replies;
mod requests;

use command_spec::pattern::Compared;
use records::Record;
use std::io::Stdout;

// What a pattern answers to a name, which are two records, and the line's end. One that is not whole is empty.
fn pattern(stdout: Stdout, both: &[u8]) {
    let (pattern, rest) = records::bytes_at_front(both);
    let (name, _) = records::bytes_at_front(rest);
    // A `match`: the input tells which runs, and no function may hand a closure out.
    match command_glob::compare(pattern, name) {
        Compared::Matches => lines::text(stdout, b"matches\n"),
        Compared::Differs => lines::text(stdout, b"does not match\n"),
        Compared::DiffersByTheEnd => lines::text(stdout, b"does not match, by the end\n"),
    }
}

// `#` is a label for the line, `?` a pattern and a name, `=` a reply, and a digit a request with so many places.
fn show(stdout: Stdout, one: Record<'_>) {
    // A `match`: the input tells which runs, and no function may hand a closure out.
    match one.kind {
        b'#' => lines::text(stdout, one.bytes),
        b'?' => pattern(stdout, one.bytes),
        b'=' => replies::reply(stdout, one.bytes),
        b'2' => requests::request(stdout, one.bytes, 2),
        b'4' => requests::request(stdout, one.bytes, 4),
        b'8' => requests::request(stdout, one.bytes, 8),
        _ => {}
    }
}

fn show_all(stdout: Stdout, input: &[u8]) {
    let mut rest = input;
    while let Some((one, behind)) = records::split(rest) {
        show(stdout, one);
        rest = behind;
    }
}

fn room() -> [u8; 2097152] {
    [0u8; 2097152]
}

fn main(rt: HostRuntime) {
    let mut buffer = room();
    let n = base_input::read_full(rt.stdin(), &mut buffer);
    show_all(rt.stdout(), &buffer[..n]);
}
