// What the line of an item says.
ghost use Rattle.std.specs.Prelude.{◌≡◌};
ghost use Rattle.resp_spec.specs.declared.Header.TheVariants.{Multibulk, Bulk};
ghost use Rattle.reply_item.specs.Replies.{reply_size, bulk_line, array_line, item_line_of};

use crate::{Item, ItemLine, Size, sizes, whole_number};
use resp_spec::Header;

// The text behind a `$`.
fn read_bulk(text: &[u8]) -> ItemLine
    ensures { result ≡ bulk_line (reply_size Bulk text.now) }
{
    match sizes::read_size(Header::Bulk, text) {
        Size::Of(n) => ItemLine::BulkFollows(n as usize),
        Size::Absent => ItemLine::Complete(Item::NoBulk),
        Size::NoSize => ItemLine::Wrong,
    }
}

// The text behind a `*`.
fn read_array(text: &[u8]) -> ItemLine
    ensures { result ≡ array_line (reply_size Multibulk text.now) }
{
    match sizes::read_size(Header::Multibulk, text) {
        Size::Of(n) => ItemLine::ItemsFollow(n as usize),
        Size::Absent => ItemLine::Complete(Item::NoArray),
        Size::NoSize => ItemLine::Wrong,
    }
}

// Reads the text of a line; what stands behind its first byte starts at `from`.
pub fn read_item_line(text: &[u8], from: usize) -> ItemLine
    ensures { result ≡ item_line_of from text.now }
{
    // A `match`: the input tells which runs, and no function may hand a closure out.
    match text {
        [b'+', rest @ ..] => ItemLine::Complete(Item::SimpleText(from, rest.len())),
        [b'-', rest @ ..] => ItemLine::Complete(Item::ErrorText(from, rest.len())),
        [b':', rest @ ..] => whole_number::read_number(rest),
        [b'$', rest @ ..] => read_bulk(rest),
        [b'*', rest @ ..] => read_array(rest),
        _ => ItemLine::Wrong,
    }
}
