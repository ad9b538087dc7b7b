// A command by what it does: pairs, tombstones, a counter, or a reply alone.
ghost use Rattle.std.specs.Prelude.{◌≡◌, ◌<◌, ◌^◌, length, replicate};
ghost use Rattle.store_memtable.specs.Layout.{last_word};
ghost use Rattle.store_commit.specs.Leaving.{SameLent};
ghost use Rattle.command_meaning.specs.Kinds.{kind_effect, KindCounted};
ghost use Rattle.command_spec.specs.Requests.{arguments_of};
ghost use Rattle.command_room.specs.Reading.{last_reader};
ghost use Rattle.command_room.specs.Served.{Runs};
ghost use Rattle.command_spec.specs.Numbers.{answer_numbers};

use crate::{replies, run};
use command_meaning::Kind;
use command_spec::request::Request;
use command_spec::{Answer, CallError};
use store_commit::lent::StoreMut;

// Runs a command by what it does.
pub fn run_kind(
    kind: Kind,
    request: &Request,
    used: usize,
    store: &mut StoreMut,
    out: &mut [u8],
) -> Result<Answer, CallError>
    requires kind_counted { KindCounted kind request.now.count }
    requires words_bound { last_word store.old.words.now < 2 ^ 64 }
    requires out_value { out.old ≡ replicate (length out.old) 0 }
    ensures lent { SameLent store.old store.new }
    ensures runs { Runs (kind_effect kind (last_reader store.old.words.now store.old.bytes.now) (arguments_of request.now)) used out.old store.old.words.now store.old.bytes.now (answer_numbers result) out.new store.new.words.now store.new.bytes.now }
{
    // A `match`: the input tells which runs, and no function may hand a closure out.
    match kind {
        Kind::Pairs => run::run_pairs(request, (request.count - 1) / 2, used, store, out),
        Kind::Tombstones => run::run_tombstones(request, used, store, out),
        Kind::Counter(by) => run::run_counter(request.argument(1), by, used, store, out),
        Kind::Reads(read) => replies::answer_read(read, request, used, &store.read(), out),
    }
}
