// Whole numbers within 64 bits with a sign (`int_arg` of src/server.rs, by R-1 of document 02), and a sum that does not overflow.
ghost use Rattle.std.specs.Prelude.{◌≡◌, ◌+ℤ◌};
ghost use Rattle.base_key.specs.Bytes.{bytes, same_bytes};
ghost use Rattle.base_number.specs.Number.{size_of, signed, number_of, number_in, int_arg, length_within};
ghost use Rattle.base_number.specs.Sizes.{Positive};

use crate::header;

// The number of a sign and a size above 0.
fn number_from(negative: bool, size: Option<u64>) -> Option<i64>
    requires { Positive size }
    ensures { result ≡ number_in (signed negative size) }
{
    let value = size?;
    if negative {
        return 0i64.checked_sub_unsigned(value);
    }
    i64::try_from(value).ok()
}

// Reads digits that begin with 1 to 9.
fn from_one(text: &[u8]) -> Option<u64>
    ensures { result ≡ length_within (size_of text.now) }
{
    if text.starts_with(b"0") {
        return None;
    }
    header::digits_value(text)
}

// Reads a number: `0`, or an optional `-` and digits that begin with 1 to 9.
pub fn int_arg(text: &[u8]) -> Option<i64>
    ensures { result ≡ int_arg text.now }
{
    if let Some(digits) = text.strip_prefix(b"-") {
        return number_from(true, from_one(digits));
    }
    if text == b"0".as_slice() {
        return Some(0);
    }
    number_from(false, from_one(text))
}

// The sum, where it stays within 64 bits.
pub fn checked_sum(a: i64, b: i64) -> Option<i64>
    ensures { result ≡ number_of (a +ℤ b) }
{
    a.checked_add(b)
}
