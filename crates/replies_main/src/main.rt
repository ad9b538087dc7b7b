// Replies read by the proved reader, each on one line with what it answers: published examples of RESP2, the limits of lines that no
// definition computes in a moment, the order of waits, faults and numbers, and then the records of `stdin`, which were made at random.
// `stdout` has the answers that document 02 asks for, from a reader that was written apart from this one.
#![tactic(auto)]

ghost use Rattle.std.specs.Prelude.{◌≤◌, ◌<◌, length};
ghost use Rattle.std.specs.Option.{IfSome};

use reply_item::ReplyRead;
use reply_reader::table;
use std::io::{Stdin, Stdout};

// The words of a table with sixteen places.
const TABLE_WORDS: usize = 64;

// A write that fails is passed over.
fn text(stdout: Stdout, bytes: &[u8]) {
    let _ = stdout.write_all(bytes);
}

fn number(stdout: Stdout, n: u64) {
    let _ = print!(stdout; " {n}");
}

// All words of the table: the items, and the zeros behind them.
fn words(stdout: Stdout, table: &[u64]) {
    for word in table {
        number(stdout, *word);
    }
}

fn answer(stdout: Stdout, read: ReplyRead) {
    // A `match`: the input tells which runs, and no function may hand a closure out.
    match read {
        ReplyRead::Wait => text(stdout, b"wait:"),
        ReplyRead::Fault(offset) => {
            text(stdout, b"fault");
            number(stdout, offset as u64);
            text(stdout, b":")
        }
        ReplyRead::Refused(refusal) => {
            text(stdout, b"number");
            number(stdout, u64::from(refusal));
            text(stdout, b":")
        }
        ReplyRead::Whole(used, count) => {
            text(stdout, b"whole");
            number(stdout, used as u64);
            number(stdout, count as u64);
            text(stdout, b":")
        }
    }
}

fn reading(stdout: Stdout, input: &[u8], table: &mut [u64]) {
    let read = reply_reader::read_reply(input, table);
    answer(stdout, read);
    words(stdout, table);
    text(stdout, b"\n")
}

// The answer with places for so many items; the words of the table are not zero before.
fn show(stdout: Stdout, input: &[u8], places: usize)
    requires { places ≤ 16 }
{
    let mut table = [9u64; TABLE_WORDS];
    let spare = TABLE_WORDS - table::ITEM_WORDS * places;
    reading(stdout, input, &mut table[spare..])
}

// A digit as a number of places.
fn places_of(byte: u8) -> usize
    ensures { result ≤ 9 }
{
    byte.saturating_sub(b'0').min(9) as usize
}

// A digit of places, the length of the bytes in two bytes, and the bytes.
#[derive(Clone, Copy)]
struct Record<'a> {
    places: u8,
    bytes: &'a [u8],
}

// The record at the front, if it is whole, and what stands behind it.
fn split(input: &[u8]) -> Option<(Record<'_>, &[u8])>
    ensures { IfSome result (λ p. length p.1.now < length input.now) }
{
    let [places, high, low, behind @ ..] = input else {
        return None;
    };
    let size = u16::from_be_bytes([*high, *low]) as usize;
    let (bytes, rest) = behind.split_at_checked(size)?;
    Some((
        Record {
            places: *places,
            bytes,
        },
        rest,
    ))
}

// All records, one behind the other.
fn records(stdout: Stdout, input: &[u8]) {
    let mut rest = input;
    while let Some((one, behind)) = split(rest) {
        show(stdout, one.bytes, places_of(one.places));
        rest = behind;
    }
}

fn room() -> [u8; 262144] {
    [0u8; 262144]
}

// What standard input has.
fn stored(stdin: Stdin, stdout: Stdout) {
    let mut buffer = room();
    let n = base_input::read_full(stdin, &mut buffer);
    records(stdout, &buffer[..n]);
}

fn line() -> [u8; 65538] {
    [b'+'; 65538]
}

// The answer to the first bytes of a long line.
fn first(stdout: Stdout, bytes: &[u8], there: usize) {
    if let Some(front) = bytes.get(..there) {
        show(stdout, front, 1)
    }
}

// A line of simple text whose LF stands at `at`.
fn with_feed(stdout: Stdout, at: usize)
    requires { at ≤ 65537 }
{
    let mut bytes = line();
    bytes[at] = b'\n';
    first(stdout, &bytes, 65538)
}

// A line without LF, of which so many bytes are there.
fn without_feed(stdout: Stdout, there: usize) {
    let bytes = line();
    first(stdout, &bytes, there)
}

fn main(rt: HostRuntime) {
    let stdout = rt.stdout();
    // the RESP2 specification
    show(stdout, b"+OK\r\n", 1);
    show(stdout, b"-Error message\r\n", 1);
    show(
        stdout,
        b"-WRONGTYPE Operation against a key holding the wrong kind of value\r\n",
        1,
    );
    show(stdout, b":0\r\n", 1);
    show(stdout, b":1000\r\n", 1);
    show(stdout, b"$5\r\nhello\r\n", 1);
    show(stdout, b"$0\r\n\r\n", 1);
    show(stdout, b"$-1\r\n", 1);
    show(stdout, b"*0\r\n", 1);
    show(stdout, b"*2\r\n$5\r\nhello\r\n$5\r\nworld\r\n", 3);
    show(stdout, b"*3\r\n:1\r\n:2\r\n:3\r\n", 4);
    show(stdout, b"*5\r\n:1\r\n:2\r\n:3\r\n:4\r\n$5\r\nhello\r\n", 6);
    show(stdout, b"*-1\r\n", 1);
    show(
        stdout,
        b"*2\r\n*3\r\n:1\r\n:2\r\n:3\r\n*2\r\n+Hello\r\n-World\r\n",
        8,
    );
    show(stdout, b"*3\r\n$5\r\nhello\r\n$-1\r\n$5\r\nworld\r\n", 4);
    // an LF at offset 65,536 passes, at 65,537 it does not; 65,536 bytes without LF wait, 65,537 do not
    with_feed(stdout, 65536);
    with_feed(stdout, 65537);
    without_feed(stdout, 65536);
    without_feed(stdout, 65537);
    // numbers
    show(stdout, b":-9223372036854775808\r\n", 1);
    show(stdout, b":9223372036854775808\r\n", 1);
    show(stdout, b":-0\r\n", 1);
    // order
    show(
        stdout,
        b"*1\r\n*1\r\n*1\r\n*1\r\n*1\r\n*1\r\n*1\r\n*1\r\n:5\r\n",
        9,
    );
    show(
        stdout,
        b"*1\r\n*1\r\n*1\r\n*1\r\n*1\r\n*1\r\n*1\r\n*1\r\n*0\r\n",
        8,
    );
    show(stdout, b"*2\r\n:1\r\n:2\r\n", 2);
    show(stdout, b"*2\r\n:1\r\n:2", 2);
    show(stdout, b"*2\r\n:1\r\n$+2\r\nab\r\n", 2);
    show(stdout, b"", 0);
    stored(rt.stdin(), stdout)
}
