// The decimal text of a number with a sign, written at the front of a lent buffer.
#![tactic(auto)]

pub mod digits;

ghost use Rattle.std.specs.Prelude.{◌≡◌};
ghost use Rattle.base_writing.specs.Puts.{Puts, Adds};
ghost use Rattle.base_number.specs.Decimal.{decimal};

// Writes a number, with `-` in front of one below zero.
pub fn put_decimal(out: &mut [u8], z: i64) -> Option<usize>
    ensures { Puts (decimal z) out.old result out.new }
{
    let size = z.unsigned_abs();
    if z < 0 {
        let put = base_writing::put_byte(out, b'-');
        return digits::then_digits(out, put, size);
    }
    digits::put_digits(out, size)
}

// Writes it behind what was put.
pub fn then_decimal(out: &mut [u8], put: Option<usize>, z: i64) -> Option<usize>
    ensures { Adds (decimal z) put out.old result out.new }
{
    base_writing::then(out, put, |rest| put_decimal(rest, z))
}
