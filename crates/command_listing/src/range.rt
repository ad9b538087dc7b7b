// RANGE.
ghost use Rattle.std.specs.Prelude.{◌≡◌, ◌++◌, ◌≤◌, length, take};
ghost use Rattle.std.specs.Prelude.{Some};
ghost use Rattle.base_key.specs.Keys.{key_below};
ghost use Rattle.base_writing.specs.Puts.{Puts, Adds};
ghost use Rattle.resp_spec.specs.Reply.{BulkString, encode};
ghost use Rattle.store_memtable.specs.Versions.{table};
ghost use Rattle.store_memtable.specs.Reading.{versions_of};
ghost use Rattle.command_spec.specs.Command.{RANGE, answer_listing};
ghost use Rattle.command_listing.specs.Rest.{rest_of, below, pairs_reply};

use resp_encode::reply;
use std::cmp::Ordering;
use store_memtable::LAST;
use store_memtable::store::Store;

// Is the key `name` below `end`?
#[tactic(auto, unfolding(base_key::specs::Keys::key_below))]
fn is_below(name: &[u8], end: &[u8]) -> bool
    ensures { result ≡ key_below name.now end.now }
{
    matches!(base_key::compare(name, end), Ordering::Less)
}

// Counts the entries from `from` on up to the key `end`, at most `limit` of them.
fn count_below(store: &Store, end: &[u8], from: usize, limit: u64) -> u64
    ensures { result ≡ length (take limit (below end.now (rest_of store.now from))) }
{
    let mut i = from;
    for count in 0..limit {
        let Some(j) = store.next_live(i) else {
            return count;
        };
        if !is_below(store.key(j), end) {
            return count;
        }
        i = j + 1;
    }
    limit
}

// Writes a key and its value behind what was put.
fn then_pair(out: &mut [u8], put: Option<usize>, name: &[u8], value: &[u8]) -> Option<usize>
    ensures { Adds (encode (BulkString name.now) ++ encode (BulkString value.now)) put out.old result out.new }
{
    let line = resp_items::then_bulk(out, put, name);
    line?;
    resp_items::then_bulk(out, line, value)
}

// Writes the array of `count` entries from `from` on, keys and values in turn, up to one that does not fit.
fn put_pairs(out: &mut [u8], store: &Store, from: usize, count: u64) -> Option<usize>
    requires count_in_bounds { count ≤ length (rest_of store.now from) }
    ensures { Puts (encode (pairs_reply (take count (rest_of store.now from)))) out.old result out.new }
{
    let mut put = reply::put_head(out, b'*', 2 * count);
    let mut i = from;
    for _written in 0..count {
        put?;
        let Some(j) = store.next_live(i) else {
            return put;
        };
        let name = store.key(j);
        put = then_pair(out, put, name, store.value(j));
        i = j + 1;
    }
    put
}

// RANGE.
pub fn put_range(
    out: &mut [u8],
    store: &Store,
    start: &[u8],
    end: &[u8],
    limit: u64,
) -> Option<usize>
    ensures { Puts (encode (answer_listing (table (versions_of store.now)) (RANGE start.now end.now (Some limit)))) out.old result out.new }
{
    let from = store.place(start, store.words[LAST]);
    let count = count_below(store, end, from, limit);
    put_pairs(out, store, from, count)
}
