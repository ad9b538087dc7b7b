// The length in a request's header: an optional `+`, then digits, within 64 bits without a sign.
ghost use Rattle.std.specs.Prelude.{◌≡◌};
ghost use Rattle.base_number.specs.Number.{value_of, length_within, length_of};

// Reads a text of digits alone, one at least.
pub fn digits_value(text: &[u8]) -> Option<u64>
    ensures { result ≡ length_within (value_of text.now) }
{
    if text.is_empty() {
        return None;
    }
    let mut value: u64 = 0;
    for byte in text {
        if !byte.is_ascii_digit() {
            return None;
        }
        let digit = u64::from(*byte - b'0');
        value = value.checked_mul(10)?.checked_add(digit)?;
    }
    Some(value)
}

// Reads a header's length.
pub fn header_length(text: &[u8]) -> Option<u64>
    ensures { result ≡ length_of text.now }
{
    match text.strip_prefix(b"+") {
        Some(digits) => digits_value(digits),
        None => digits_value(text),
    }
}
