// A reply, read: wait, one whole reply with the bytes it uses, a fault with the offset of its item, or a refusal.
#![tactic(auto)]

pub mod table;

ghost use Rattle.std.specs.Prelude.{◌≡◌, ◌/◌, length};
ghost use Rattle.reply_item.specs.Replies.{read_item, read_items};
ghost use Rattle.reply_reader.specs.Table.{ItemsIn, ItemsAre, ReplyIs, item_count};

use reply_item::next::Spot;
use reply_item::{Item, ReplyRead, Step};

// How deep arrays may nest.
const MOST_DEPTH: usize = 8;

// Reads `count` items from `from` on, the first being item `first`. Arrays among them may nest `depth` deep: for the items of such
// an array the function calls itself with a depth one less.
fn read_items(
    input: &[u8],
    items: &mut [u64],
    depth: usize,
    count: usize,
    first: usize,
    from: usize,
) -> ReplyRead
    requires { ItemsIn input.now items.old first from }
    ensures { ItemsAre (read_items (read_item depth (length items.old / 4) input.now) count first from) input.now first items.old result items.new }
{
    let places = items.len() / table::ITEM_WORDS;
    let mut n = first;
    let mut at = from;
    for _ in 0..count {
        let spot = Spot {
            input,
            places,
            depth,
            n,
            at,
        };
        match spot.step() {
            Step::Wait => return ReplyRead::Wait,
            Step::Fault(offset) => return ReplyRead::Fault(offset),
            Step::Refused(refusal) => return ReplyRead::Refused(refusal),
            Step::Next(item, end) => {
                table::put_item(items, n, item);
                n += 1;
                at = end;
            }
            Step::Opens(inner, start) => {
                table::put_item(items, n, Item::ArrayOf(inner));
                match read_items(input, items, depth - 1, inner, n + 1, start) {
                    ReplyRead::Whole(end, all) => {
                        n = all;
                        at = end;
                    }
                    stopped => return stopped,
                }
            }
        }
    }
    ReplyRead::Whole(at, n)
}

// The count of items that an answer leaves in the table.
#[tactic(auto, unfolding(crate::specs::Table::item_count))]
fn item_count(read: ReplyRead) -> usize
    ensures { result ≡ item_count read }
{
    match read {
        ReplyRead::Whole(_, count) => count,
        _ => 0,
    }
}

// Reads the reply at the front of `input`. Where it is whole, its items stand in the first words of `items`, four for each, in the
// order of their first bytes, and the other words are zero. Otherwise all words are zero.
pub fn read_reply(input: &[u8], items: &mut [u64]) -> ReplyRead
    ensures { ReplyIs input.now items.old result items.new }
{
    let read = read_items(input, items, MOST_DEPTH, 1, 0, 0);
    let kept = table::ITEM_WORDS * item_count(read);
    items[kept..].fill(0);
    read
}
