// The queue of one session: its limits, and a command appended behind it.
#![tactic(auto)]

ghost use Rattle.std.specs.Prelude.{◌≡◌, ◌+◌, ◌*◌, ◌≤◌, length};
ghost use Rattle.base_key.specs.Bytes.{part, total, concat, put_at};
ghost use Rattle.command_spec.specs.Lent.{capped};
ghost use Rattle.command_spec.specs.Held.{Held};
ghost use Rattle.command_spec.specs.Places.{lengths_at, QueueSizes, Takes, HasRoom, Appended, places_of, Expandable};
ghost use Rattle.command_spec.specs.Requests.{arguments_of};

use command_spec::request::Request;
use session_memory::{
    ARGUMENTS, COUNTS, LENGTHS, MOST_ARGUMENT_BYTES, MOST_ARGUMENTS, MOST_QUEUED, QUEUED,
};

// The sum of the lengths of `count` arguments, or one more than `limit` if it is above.
#[tactic(auto, using(session_memory::proofs::Sums::first_lengths))]
pub fn lengths_within(places: &[u64], count: usize, limit: usize) -> usize
    requires { (2 * count ≤ length places.now) × (limit ≤ 8192) }
    ensures { result ≡ capped limit (total (lengths_at 0 count places.now)) }
{
    session_memory::sum_every(places, 1, 2, count, limit)
}

// Does the queue keep within its limits with a command of `count` arguments more?
pub fn takes(words: &[u64], places: &[u64], count: usize) -> bool
    requires queue_sizes { QueueSizes words.now }
    requires count_in_bounds { 2 * count ≤ length places.now }
    ensures { Takes words.now places.now count result }
{
    let queued = session_memory::word(words, QUEUED);
    if MOST_QUEUED <= queued {
        return false;
    }
    let arguments = session_memory::sum_within(words, COUNTS, queued, MOST_ARGUMENTS);
    if MOST_ARGUMENTS - arguments < count {
        return false;
    }
    let used = session_memory::sum_within(words, LENGTHS, arguments, MOST_ARGUMENT_BYTES);
    let left = MOST_ARGUMENT_BYTES - used;
    lengths_within(places, count, left) <= left
}

// Writes the lengths of the arguments at `at`.
fn put_lengths(words: &mut [u64], at: usize, request: &Request)
    requires { at + request.now.count ≤ length words.old }
    ensures { words.new ≡ put_at at (lengths_at 0 request.now.count request.now.places.now) words.old }
{
    for i in 0..request.count {
        words[at + i] = request.places[2 * i + 1];
    }
}

// Writes the arguments one behind the other at `at`.
fn put_arguments(bytes: &mut [u8], at: usize, request: &Request)
    requires { at + total (lengths_at 0 request.now.count request.now.places.now) ≤ length bytes.old }
    ensures { bytes.new ≡ put_at at (concat (arguments_of request.now)) bytes.old }
{
    let mut pos = at;
    for i in 0..request.count {
        let argument = request.argument(i);
        base_writing::put_at(bytes, pos, argument);
        pos += argument.len();
    }
}

// Appends a command, inside MULTI and with room for it.
pub fn append(words: &mut [u64], bytes: &mut [u8], request: &Request)
    requires held { Held words.old bytes.old }
    requires has_room { HasRoom words.old request.now.places.now request.now.count }
    ensures { Appended words.old words.new bytes.old bytes.new (arguments_of request.now) }
{
    let queued = session_memory::word(words, QUEUED);
    let arguments = session_memory::sum_within(words, COUNTS, queued, MOST_ARGUMENTS);
    let used = session_memory::sum_within(words, LENGTHS, arguments, MOST_ARGUMENT_BYTES);
    put_lengths(words, LENGTHS + arguments, request);
    put_arguments(bytes, ARGUMENTS + used, request);
    words[COUNTS + queued] = request.count as u64;
    words[QUEUED] = (queued + 1) as u64;
}

// Writes the places of the first `count` queued arguments into a table, counted from the first byte of the queue.
pub fn expand(words: &[u64], places: &mut [u64], count: usize)
    requires { Expandable words.now places.old count }
    ensures { places.new ≡ put_at 0 (places_of 0 (part 132 count words.now)) places.old }
{
    let mut start = 0;
    for i in 0..count {
        let len = words[LENGTHS + i];
        places[2 * i] = start;
        places[2 * i + 1] = len;
        start += len;
    }
}
