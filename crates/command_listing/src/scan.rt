// SCAN.
ghost use Rattle.std.specs.Prelude.{◌≡◌, ◌+◌, ◌≤◌, length, take, drop};
ghost use Rattle.base_writing.specs.Puts.{Puts, Adds};
ghost use Rattle.resp_spec.specs.Reply.{encode};
ghost use Rattle.store_memtable.specs.Versions.{table};
ghost use Rattle.store_memtable.specs.Reading.{versions_of};
ghost use Rattle.command_spec.specs.Command.{SCAN, answer_listing};
ghost use Rattle.command_listing.specs.Rest.{rest_of, matching, keys_reply, cursor_before};

use crate::keys;
use command_glob::Pattern;
use resp_encode::reply;
use store_memtable::store::Store;

// The place behind the first `count` entries.
fn skip(store: &Store, count: u64) -> usize
    ensures { rest_of store.now result ≡ drop count (rest_of store.now 0) }
{
    let mut i = 0;
    for _skipped in 0..count {
        let Some(j) = store.next_live(i) else {
            break;
        };
        i = j + 1;
    }
    i
}

// The next cursor: behind the `most` entries from `from` on, or 0 where no entry follows from `next` on.
fn cursor(store: &Store, next: usize, from: u64, most: u64) -> u64
    requires next_value { rest_of store.now next ≡ drop most (drop from (rest_of store.now 0)) }
    ensures { result ≡ cursor_before (rest_of store.now next) (from + most) }
{
    match store.next_live(next) {
        None => 0,
        Some(_) => from + most,
    }
}

// Writes the array of the first `count` matching keys from `from` on behind what was put.
fn then_matches(
    out: &mut [u8],
    put: Option<usize>,
    store: &Store,
    pattern: &Pattern,
    from: usize,
    count: u64,
) -> Option<usize>
    requires count_in_bounds { count ≤ length (matching pattern.now.bytes.now (rest_of store.now from)) }
    ensures { Adds (encode (keys_reply (take count (matching pattern.now.bytes.now (rest_of store.now from))))) put out.old result out.new }
{
    let at = base_writing::place(put, out.len());
    let next = keys::put_matches(&mut out[at..], store, pattern, from, count);
    base_writing::joined(out, put, next)
}

// SCAN.
pub fn put_scan(
    out: &mut [u8],
    store: &Store,
    from: u64,
    pattern: &[u8],
    most: u64,
) -> Option<usize>
    ensures { Puts (encode (answer_listing (table (versions_of store.now)) (SCAN from pattern.now most))) out.old result out.new }
{
    let pattern = Pattern::new(pattern);
    let at = skip(store, from);
    let seen = keys::count_matches(store, &pattern, at, most);
    let follows = cursor(store, seen.next, from, most);
    let head = reply::put_head(out, b'*', 2);
    let line = resp_items::then_bulk_digits(out, head, follows);
    line?;
    then_matches(out, line, store, &pattern, at, seen.matched)
}
