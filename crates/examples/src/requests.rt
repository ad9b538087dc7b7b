// The reader's answer to a request: `wait`, `too many`, the reply to a protocol error, or `whole` with the count of
// arguments, the bytes used, and the arguments.
ghost use Rattle.std.specs.Prelude.{◌≤◌};

use crate::lines;
use resp_parse::request;
use resp_spec::{Fault, Read, Span};
use std::io::Stdout;

// The longest argument that is written out; of a longer one the length is.
const MOST_SHOWN: usize = 64;

fn fault(stdout: Stdout, input: &[u8], fault: Fault) {
    let mut buffer = [0u8; 256];
    let put = resp_faults::put_fault(&mut buffer, input, fault);
    lines::written(stdout, &buffer, put)
}

fn argument(stdout: Stdout, bytes: &[u8]) {
    lines::byte(stdout, b' ');
    lines::byte(stdout, b'[');
    if bytes.len() <= MOST_SHOWN {
        lines::escaped(stdout, bytes);
    } else {
        lines::number(stdout, bytes.len());
        lines::text(stdout, b" bytes");
    }
    lines::byte(stdout, b']')
}

fn arguments(stdout: Stdout, input: &[u8], places: &[u64], n: usize) {
    for place in places.chunks_exact(2).take(n) {
        if let [start, len] = *place {
            let span = Span {
                start: start as usize,
                len: len as usize,
            };
            argument(stdout, resp_faults::part_of(input, span));
        }
    }
}

fn whole(stdout: Stdout, input: &[u8], places: &[u64], n: usize, used: usize) {
    lines::text(stdout, b"whole ");
    lines::number(stdout, n);
    lines::byte(stdout, b' ');
    lines::number(stdout, used);
    arguments(stdout, input, places, n);
    lines::byte(stdout, b'\n')
}

fn answer(stdout: Stdout, input: &[u8], places: &[u64], read: Read) {
    // A `match`: the input tells which runs, and no function may hand a closure out.
    match read {
        Read::Wait => lines::text(stdout, b"wait\n"),
        Read::Faulty(f) => fault(stdout, input, f),
        Read::TooMany => lines::text(stdout, b"too many\n"),
        Read::Whole(n, used) => whole(stdout, input, places, n, used),
    }
}

fn reading(stdout: Stdout, input: &[u8], places: &mut [u64]) {
    let read = request::read(input, places);
    answer(stdout, input, places, read)
}

// The answer with places for so many arguments, and the line's end.
pub fn request(stdout: Stdout, input: &[u8], most: usize)
    requires { most ≤ 8 }
{
    let mut places = [0u64; 16];
    let spare = 16 - 2 * most;
    reading(stdout, input, &mut places[spare..])
}
