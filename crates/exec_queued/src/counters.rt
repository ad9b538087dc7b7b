// INCR, DECR and INCRBY inside EXEC.
ghost use Rattle.std.specs.Prelude.{◌≡◌, ◌+◌, ◌-◌, ◌*◌, ◌≤◌, length, take};
ghost use Rattle.std.specs.Prelude.{Some};
ghost use Rattle.base_key.specs.Bytes.{part};
ghost use Rattle.group_spec.specs.Settling.{key_part, KeyIn};
ghost use Rattle.command_spec.specs.Command.{argument, held};
ghost use Rattle.command_spec.specs.Places.{arguments_at, PartsIn};
ghost use Rattle.command_writes.specs.Own.{Own, reader_of};
ghost use Rattle.command_lookup.specs.Reads.{read_through};
ghost use Rattle.command_writes.specs.Changes.{OwnPut};
ghost use Rattle.command_meaning.specs.Kinds.{counter_effect};
ghost use Rattle.exec_queued.specs.Walks.{MayRun, TextPut, CounterSet, CounterError, Advanced};

use crate::Walked;
use base_number::integer;
use command_lookup::counter;
use command_lookup::reader::Reader;
use command_spec::Fixed;
use command_spec::request::Request;
use command_writes::own::OwnWrites;
use command_writes::write;
use store_memtable::read;
use store_memtable::store::Store;

// Writes the text of a number behind the data in use, and answers where the data in use ends then.
fn put_text(data: &mut [u8], used: usize, n: i64) -> usize
    requires { used + 20 ≤ length «data».old }
    ensures { TextPut n «data».old used «data».new result }
{
    match base_decimal::put_decimal(&mut data[used..], n) {
        Some(len) => used + len,
        None => used,
    }
}

// Sets the write of argument 1 to what lies in the data from `start` on.
fn put_counter(places: &[u64], own: &mut [u64], rows: usize, data: &[u8], start: usize) -> usize
    requires own { Own own.old «data».now rows }
    requires key_in { KeyIn places.now «data».now 2 }
    requires start_in_bounds { start ≤ length «data».now }
    requires rows_in_bounds { 4 * rows + 4 ≤ length own.old }
    ensures { OwnPut own.old own.new «data».now rows (key_part places.now «data».now 2) (Some (part start (length «data».now - start) «data».now)) result }
{
    let key_start = read::word(places, 2);
    let key_len = read::word(places, 3);
    let len = data.len() - start;
    write::put(own, rows, data, key_start, key_len, start, len + 1)
}

// A counter set to `n`: the number is answered, and its text is the write of argument 1.
fn set_counter(
    places: &[u64],
    own: &mut [u64],
    data: &mut [u8],
    out: &mut [u8],
    at: Walked,
    n: i64,
) -> Walked
    requires own { Own own.old (take at.used «data».old) at.rows }
    requires key_in { KeyIn places.now (take at.used «data».old) 2 }
    requires rows_in_bounds { 4 * at.rows + 4 ≤ length own.old }
    requires used_in_bounds { at.used + 20 ≤ length «data».old }
    ensures { CounterSet (key_part places.now (take at.used «data».old) 2) n own.old «data».old out.old at own.new «data».new out.new result }
{
    let put = resp_items::then_int(out, at.put, n);
    let used = put_text(data, at.used, n);
    let rows = put_counter(places, own, at.rows, &data[..used], at.used);
    Walked { rows, used, put }
}

// A counter answered by an error: nothing is set.
fn answer_error(out: &mut [u8], at: Walked, which: Fixed) -> Walked
    ensures { CounterError which out.old at out.new result }
{
    let put = command_errors::then_fixed(out, at.put, which);
    Walked { put, ..at }
}

// The number read and the checked sum, or the error.
pub fn run_counter(
    places: &[u64],
    count: usize,
    by: i64,
    own: &mut [u64],
    data: &mut [u8],
    store: &Store,
    seq: u64,
    out: &mut [u8],
    at: Walked,
) -> Walked
    requires may_run { MayRun places.now count own.old «data».old at }
    requires le_count { 2 ≤ count }
    ensures { Advanced (counter_effect by (reader_of own.old (take at.used «data».old) at.rows store.now.words.now store.now.bytes.now seq) (arguments_at 0 count places.now (take at.used «data».old))) (count - 1) own.old «data».old out.old at own.new «data».new out.new result }
{
    let request = Request {
        input: &data[..at.used],
        places,
        count,
    };
    let writes = OwnWrites {
        own,
        rows: at.rows,
        data: request.input,
    };
    let reader = Reader {
        writes,
        store: *store,
        seq,
    };
    let Some(number) = counter::held_number(&reader, request.argument(1)) else {
        return answer_error(out, at, Fixed::NotInteger);
    };
    let Some(sum) = integer::checked_sum(number, by) else {
        return answer_error(out, at, Fixed::Overflow);
    };
    set_counter(places, own, data, out, at, sum)
}
