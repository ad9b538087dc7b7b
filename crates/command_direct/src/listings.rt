// The commands that list the table.
ghost use Rattle.std.specs.Prelude.{◌≡◌, ◌≤◌, length, replicate};
ghost use Rattle.base_writing.specs.Puts.{Puts};
ghost use Rattle.resp_spec.specs.Reply.{encode};
ghost use Rattle.store_memtable.specs.Versions.{table};
ghost use Rattle.store_memtable.specs.Reading.{versions_of};
ghost use Rattle.command_spec.specs.Command.{lists, SCAN, RANGE, argument, answer_listing};
ghost use Rattle.command_meaning.specs.Meant.{listing_meant, pattern_at, PatternCounted, ListingCounted};
ghost use Rattle.command_spec.specs.Requests.{arguments_of};
ghost use Rattle.command_room.specs.Served.{Answers};
ghost use Rattle.command_spec.specs.Numbers.{answer_numbers};

use command_listing::{dbsize, keys, range, scan};
use command_meaning::Listing;
use command_spec::request::Request;
use command_spec::{Answer, CallError};
use store_memtable::store::Store;

// SCAN: the pattern is the argument of this place, and `*` for none.
fn put_scan(
    out: &mut [u8],
    request: &Request,
    store: &Store,
    from: u64,
    pattern: Option<usize>,
    most: u64,
) -> Option<usize>
    requires { PatternCounted pattern request.now.count }
    ensures { Puts (encode (answer_listing (table (versions_of store.now)) (SCAN from (pattern_at pattern (arguments_of request.now)) most))) out.old result out.new }
{
    match pattern {
        Some(k) => scan::put_scan(out, store, from, request.argument(k), most),
        None => scan::put_scan(out, store, from, b"*", most),
    }
}

// RANGE from argument 1 up to argument 2. No table has 2^64 entries.
fn put_range(out: &mut [u8], request: &Request, store: &Store, limit: Option<u64>) -> Option<usize>
    requires { 3 ≤ request.now.count }
    ensures { Puts (encode (answer_listing (table (versions_of store.now)) (RANGE (argument 1 (arguments_of request.now)) (argument 2 (arguments_of request.now)) limit))) out.old result out.new }
{
    let most = limit.unwrap_or(u64::MAX);
    range::put_range(out, store, request.argument(1), request.argument(2), most)
}

// Writes the reply of a command that lists the table.
fn put_listing(listing: Listing, request: &Request, store: &Store, out: &mut [u8]) -> Option<usize>
    requires { ListingCounted listing request.now.count }
    ensures { Puts (encode (answer_listing (table (versions_of store.now)) (listing_meant listing (arguments_of request.now)))) out.old result out.new }
{
    // A `match`: the input tells which runs, and no function may hand a closure out.
    match listing {
        Listing::Dbsize => dbsize::put_dbsize(out, store),
        Listing::Keys => keys::put_keys(out, store, request.argument(1)),
        Listing::Scan {
            from,
            pattern,
            most,
        } => put_scan(out, request, store, from, pattern, most),
        Listing::Range(limit) => put_range(out, request, store, limit),
    }
}

// Answers a command that lists the table.
pub fn answer_listing(
    listing: Listing,
    request: &Request,
    used: usize,
    store: &Store,
    out: &mut [u8],
) -> Result<Answer, CallError>
    requires listing_counted { ListingCounted listing request.now.count }
    requires out_value { out.old ≡ replicate (length out.old) 0 }
    ensures { Answers (lists (listing_meant listing (arguments_of request.now))) used out.old store.now.words.now store.now.bytes.now (answer_numbers result) out.new store.now.words.now store.now.bytes.now }
{
    let put = put_listing(listing, request, store, out);
    command_answer::put_answer(put, used)
}
