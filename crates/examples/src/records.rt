// A record is a byte that tells its kind, three bytes of length, the highest first, and its bytes.
ghost use Rattle.std.specs.Prelude.{◌<◌, length};
ghost use Rattle.std.specs.Option.{IfSome};

// `kind` is the byte of the input: records and the items of a reply each read it by a `match` of their own, which an enum would repeat.
#[derive(Clone, Copy)]
pub struct Record<'a> {
    pub kind: u8,
    pub bytes: &'a [u8],
}

// The record at the front, if it is whole, and what stands behind it.
pub fn split(input: &[u8]) -> Option<(Record<'_>, &[u8])>
    ensures { IfSome result (λ p. length p.1.now < length input.now) }
{
    let [kind, high, middle, low, behind @ ..] = input else {
        return None;
    };
    let len = u32::from_be_bytes([0, *high, *middle, *low]) as usize;
    let (bytes, rest) = behind.split_at_checked(len)?;
    Some((Record { kind: *kind, bytes }, rest))
}

// The bytes of the record at the front, and what stands behind it: no bytes where it is not whole.
pub fn bytes_at_front(input: &[u8]) -> (&[u8], &[u8]) {
    match split(input) {
        Some((record, rest)) => (record.bytes, rest),
        None => (&[], &[]),
    }
}
