// Group calls on local arrays: each number with the verdict bytes, written to standard output.
#![tactic(auto)]

use command_spec::CallError;
use group_spec::Member;
use registry::{group, open};
use std::io::Stdout;

// A member without a read sequence.
fn writing(first: usize, count: usize) -> Member {
    Member {
        has_read: 0,
        read: 0,
        first_write: first,
        writes: count,
        first_check: 0,
        checks: 0,
    }
}

// A member with one: it writes `count` keys from the first write on, and checks `checks` keys from the first check on.
fn reading(read: u64, count: usize, checks: usize) -> Member {
    Member {
        has_read: 1,
        read,
        first_write: 0,
        writes: count,
        first_check: 0,
        checks,
    }
}

// Writes the number that a call gives at the interface, two verdict bytes and a line feed; a write that fails is passed over.
fn show(stdout: Stdout, judged: Result<(), CallError>, verdicts: &[u8; 2]) {
    let number = match judged {
        Ok(()) => 0,
        Err(error) => error.into(),
    };
    let one = verdicts[0];
    let two = verdicts[1];
    let _ = println!(stdout; "number {number}, verdicts {one} {two}");
}

// A mebibyte of zeros and one more. As a local of `main` it was tried: the check ran out of stack.
fn zeros() -> [u8; 1048577] {
    [0u8; 1048577]
}

// The parts of three writes without values: keys of 1,048,576 bytes, 1,048,577 bytes and one byte.
const LONG: [u64; 12] = [0, 1048576, 0, 0, 0, 1048577, 0, 0, 0, 1, 0, 0];

// Two members in a store with room for 64 bytes: 6 says that a member was taken.
fn sizes(stdout: Stdout, members: &[Member], data: &[u8]) {
    let mut words = [0u64; 25];
    let mut bytes = [0u8; 64];
    let mut verdicts = [9u8; 2];
    let _ = open::open(&mut words, &bytes, 0, 5, 64);
    let judged = group::group(members, &LONG, data, &mut verdicts, &mut words, &mut bytes);
    show(stdout, judged, &verdicts);
}

// Sizes 1,048,576 then 0; 1,048,577 then 0; 1 then 1,048,576.
fn three_sizes(stdout: Stdout, data: &[u8]) {
    sizes(stdout, &[writing(0, 1), writing(0, 0)], data);
    sizes(stdout, &[writing(1, 1), writing(0, 0)], data);
    sizes(stdout, &[writing(2, 1), writing(0, 1)], data);
}

// The parts of the keys a, b and c: a has the value b, the others none.
const PARTS: [u64; 12] = [0, 1, 1, 2, 1, 1, 0, 0, 2, 1, 0, 0];

// A call over these keys.
fn call(
    members: &[Member],
    verdicts: &mut [u8],
    words: &mut [u64],
    bytes: &mut [u8],
) -> Result<(), CallError> {
    group::group(members, &PARTS, b"abc", verdicts, words, bytes)
}

// Room for one version: members that write a and b, and c.
fn room_for_one(stdout: Stdout) {
    let mut words = [0u64; 9];
    let mut bytes = [0u8; 64];
    let mut verdicts = [9u8; 2];
    let _ = open::open(&mut words, &bytes, 0, 1, 64);
    let members = [writing(0, 2), writing(2, 1)];
    let judged = call(&members, &mut verdicts, &mut words, &mut bytes);
    show(stdout, judged, &verdicts);
}

// The newest version of a is at 5: a member that read at 5 writes a, another that read at 5 checks it.
fn read_at_five(stdout: Stdout) {
    let mut words = [0u64; 25];
    let mut bytes = [0u8; 64];
    let mut verdicts = [9u8; 2];
    let _ = open::open(&mut words, &bytes, 4, 5, 64);
    let before = [writing(0, 1), writing(0, 0)];
    let _ = call(&before, &mut verdicts, &mut words, &mut bytes);
    let members = [reading(5, 1, 0), reading(5, 0, 1)];
    let judged = call(&members, &mut verdicts, &mut words, &mut bytes);
    show(stdout, judged, &verdicts);
}

// 65 members, and two members with one verdict byte: 8, and no verdict is written.
fn refused(stdout: Stdout) {
    let mut words = [0u64; 25];
    let mut bytes = [0u8; 64];
    let mut verdicts = [9u8; 2];
    let mut long = [9u8; 65];
    let _ = open::open(&mut words, &bytes, 0, 5, 64);
    let member = writing(0, 0);
    let judged = call(&[member; 65], &mut long, &mut words, &mut bytes);
    show(stdout, judged, &verdicts);
    let short = call(&[member; 2], &mut verdicts[..1], &mut words, &mut bytes);
    show(stdout, short, &verdicts);
}

fn main(rt: HostRuntime) {
    let stdout = rt.stdout();
    let data = zeros();
    three_sizes(stdout, &data);
    room_for_one(stdout);
    read_at_five(stdout);
    refused(stdout);
}
