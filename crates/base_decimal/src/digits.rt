// The decimal digits of a number, written at the front of a lent buffer.
ghost use Rattle.std.specs.Prelude.{◌≡◌, length};
ghost use Rattle.base_writing.specs.Puts.{Puts, Adds};
ghost use Rattle.base_number.specs.Decimal.{digits};

// How many digits a number has.
pub fn digit_count(n: u64) -> u64
    ensures { result ≡ length (digits n) }
{
    u64::from(n.checked_ilog10().unwrap_or(0)) + 1
}

// Writes the digits of `n`, from the last to the first.
pub fn put_digits(out: &mut [u8], n: u64) -> Option<usize>
    ensures { Puts (digits n) out.old result out.new }
{
    let count = digit_count(n) as usize;
    if out.len() < count {
        base_writing::clear(out);
        return None;
    }
    let mut rest = n;
    for i in (0..count).rev() {
        out[i] = b'0' + (rest % 10) as u8;
        rest /= 10;
    }
    Some(count)
}

// Writes them behind what was put.
pub fn then_digits(out: &mut [u8], put: Option<usize>, n: u64) -> Option<usize>
    ensures { Adds (digits n) put out.old result out.new }
{
    base_writing::then(out, put, |rest| put_digits(rest, n))
}
