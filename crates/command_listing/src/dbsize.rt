// DBSIZE.
ghost use Rattle.base_writing.specs.Puts.{Puts};
ghost use Rattle.resp_spec.specs.Reply.{encode};
ghost use Rattle.store_memtable.specs.Versions.{table};
ghost use Rattle.store_memtable.specs.Reading.{versions_of};
ghost use Rattle.command_spec.specs.Command.{DBSIZE, answer_listing};

use resp_encode::reply;
use store_memtable::store::Store;

// Writes how many keys are live.
pub fn put_dbsize(out: &mut [u8], store: &Store) -> Option<usize>
    ensures { Puts (encode (answer_listing (table (versions_of store.now)) DBSIZE)) out.old result out.new }
{
    let count = store.count_live();
    reply::put_int(out, count as i64)
}
