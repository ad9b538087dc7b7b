// A whole number of a reply, of the form that a counter's text has (document 02, R-1).
ghost use Rattle.std.specs.Prelude.{◌≡◌};
ghost use Rattle.base_number.specs.Number.{int_arg};
ghost use Rattle.reply_item.specs.Replies.{number_line};

use crate::{Item, ItemLine};
use base_number::integer;

// Reads the text behind the `:`.
pub fn read_number(text: &[u8]) -> ItemLine
    ensures { result ≡ number_line (int_arg text.now) }
{
    let Some(z) = integer::int_arg(text) else {
        return ItemLine::Wrong;
    };
    ItemLine::Complete(Item::WholeNumber(z.cast_unsigned()))
}
