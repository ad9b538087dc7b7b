// The words of an inline line.
ghost use Rattle.std.specs.Prelude.{◌≡◌, ◌/◌, ◌≤◌, length};
ghost use Rattle.std.specs.Prelude.{None};
ghost use Rattle.std.specs.List.{prefix_len, position_or_len};
ghost use Rattle.resp_spec.specs.Request.{is_space, words_from};
ghost use Rattle.resp_spec.specs.Steps.{ReadIs, reading_of_words};

use crate::{Read, table};

// How many bytes of space stand in front.
fn space_len(text: &[u8]) -> usize
    ensures len { result ≡ prefix_len is_space text.now }
    ensures inside { result ≤ length text.now }
{
    text.iter()
        .take_while(|byte| byte.is_ascii_whitespace())
        .count()
}

// How many bytes of a word stand in front.
fn word_len(text: &[u8]) -> usize
    ensures len { result ≡ position_or_len is_space text.now }
    ensures inside { result ≤ length text.now }
{
    text.iter()
        .take_while(|byte| !byte.is_ascii_whitespace())
        .count()
}

// Reads the words of a line that takes `used` bytes with its end.
pub fn read_words(text: &[u8], places: &mut [u64], used: usize) -> Read
    ensures { ReadIs (reading_of_words (length places.old / 2) (words_from 0 None text.now) used) result places.new }
{
    let room = places.len() / 2;
    let mut n = 0;
    let mut at = space_len(text);
    while at < text.len() {
        if room <= n {
            return Read::TooMany;
        }
        let len = word_len(&text[at..]);
        table::put_place(places, n, at, len);
        n += 1;
        let end = at + len;
        at = end + space_len(&text[end..]);
    }
    Read::Whole(n, used)
}
