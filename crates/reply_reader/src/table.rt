// The lent table of a reply's items: four words for each.
ghost use Rattle.std.specs.Prelude.{◌≡◌, ◌∷◌, []};
ghost use Rattle.reply_item.specs.Replies.{item_words};
ghost use Rattle.reply_reader.specs.Table.{PlaceIn, Standing};

use reply_item::Item;

// The kinds of items.
const SIMPLE: u64 = 1;

const ERROR: u64 = 2;

const WHOLE_NUMBER: u64 = 3;

const BULK: u64 = 4;

const NO_BULK: u64 = 5;

const NO_ARRAY: u64 = 6;

const ARRAY: u64 = 7;

// The words of an item in the table.
pub const ITEM_WORDS: usize = 4;

// The words of an item: its kind; the start and the length of its bytes; its number or count.
#[tactic(auto, unfolding(reply_item::specs::Replies::item_words))]
fn words_of(item: Item) -> [u64; ITEM_WORDS]
    ensures { result ≡ item_words item }
{
    match item {
        Item::SimpleText(start, len) => [SIMPLE, start as u64, len as u64, 0],
        Item::ErrorText(start, len) => [ERROR, start as u64, len as u64, 0],
        Item::WholeNumber(word) => [WHOLE_NUMBER, 0, 0, word],
        Item::BulkText(start, len) => [BULK, start as u64, len as u64, 0],
        Item::NoBulk => [NO_BULK, 0, 0, 0],
        Item::NoArray => [NO_ARRAY, 0, 0, 0],
        Item::ArrayOf(count) => [ARRAY, 0, 0, count as u64],
    }
}

// Writes item n.
pub fn put_item(items: &mut [u64], n: usize, item: Item)
    requires { PlaceIn items.old n }
    ensures { Standing (item ∷ []) n items.old items.new }
{
    let at = ITEM_WORDS * n;
    items[at..at + ITEM_WORDS].copy_from_slice(&words_of(item));
}
