// A length or a count of a reply: as in a request, but without `+`, and `-1` for none.
ghost use Rattle.std.specs.Prelude.{◌≡◌};
ghost use Rattle.reply_item.specs.Replies.{reply_size};

use crate::Size;
use resp_spec::Header;

// Reads the text behind a `$` or a `*`.
pub fn read_size(kind: Header, text: &[u8]) -> Size
    ensures { result ≡ reply_size kind text.now }
{
    if text == b"-1".as_slice() {
        return Size::Absent;
    }
    match text {
        [] | [b'+', ..] => Size::NoSize,
        // where the text starts serves the text of a fault, which is not told here
        _ => match resp_headers::read_header(kind, 0, text) {
            Ok(n) => Size::Of(n),
            Err(_) => Size::NoSize,
        },
    }
}
