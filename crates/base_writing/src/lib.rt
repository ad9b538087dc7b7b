// Writing at the front of a lent buffer. Every writer of the reply side has one contract, `Puts`:
// the text stands in front and the rest of the buffer is as it was, or the text does not fit and
// the whole buffer is zero. Bytes are also copied and moved within lent memory that has room for them.
#![tactic(auto)]

ghost use Rattle.std.specs.Fn.{FnOnceReturnsAtMut};
ghost use Rattle.std.specs.Prelude.{◌≡◌, ◌∷◌, [], ◌+◌, ◌≤◌, length, replicate};
ghost use Rattle.base_key.specs.Bytes.{put_at, moved_up};
ghost use Rattle.base_writing.specs.Puts.{Puts, Place, sum_of, Joined, Adds};

// Sets every byte to zero.
pub fn clear(out: &mut [u8])
    ensures { out.new ≡ replicate (length out.old) 0 }
{
    out.fill(0);
}

// Writes `text`.
pub fn put_bytes(out: &mut [u8], text: &[u8]) -> Option<usize>
    ensures { Puts text.now out.old result out.new }
{
    if out.len() < text.len() {
        clear(out);
        return None;
    }
    put_at(out, 0, text);
    Some(text.len())
}

// Writes one byte.
pub fn put_byte(out: &mut [u8], byte: u8) -> Option<usize>
    ensures { Puts (byte ∷ []) out.old result out.new }
{
    *out.first_mut()? = byte;
    Some(1)
}

// Where the next text starts: behind what was put, or at the end where nothing more fits.
pub fn place(put: Option<usize>, len: usize) -> usize
    ensures { Place put len result }
{
    put.unwrap_or(len).min(len)
}

// The answer to a text and the one behind it in a buffer of `len` bytes, from the answers to both.
fn sum(put: Option<usize>, next: Option<usize>, len: usize) -> Option<usize>
    ensures { result ≡ sum_of put next len }
{
    put?.checked_add(next?).filter(|sum| *sum <= len)
}

// The same, and a refusal clears the buffer.
pub fn joined(out: &mut [u8], put: Option<usize>, next: Option<usize>) -> Option<usize>
    ensures { Joined put next out.old result out.new }
{
    let both = sum(put, next, out.len());
    if both.is_none() {
        clear(out);
    }
    both
}

// Writes behind what was put: `write` is lent the rest of the buffer. The text is any that `write` writes whatever it is lent.
pub fn then<F: FnOnce(&mut [u8]) -> Option<usize>>(
    out: &mut [u8],
    put: Option<usize>,
    write: F,
) -> Option<usize>
    requires { F.IsAlwaysCallable write }
    ensures { (text : _) → ((entry exit : _) (next : _) → FnOnceReturnsAtMut F.FnOnce write entry next exit → Puts text entry next exit) → Adds text put out.old result out.new }
{
    let at = place(put, out.len());
    let next = write(&mut out[at..]);
    joined(out, put, next)
}

// Writes `text` behind what was put: the writer is lent the rest of the buffer.
pub fn then_bytes(out: &mut [u8], put: Option<usize>, text: &[u8]) -> Option<usize>
    ensures { Adds text.now put out.old result out.new }
{
    then(out, put, |rest| put_bytes(rest, text))
}

// Writes one byte behind what was put.
pub fn then_byte(out: &mut [u8], put: Option<usize>, byte: u8) -> Option<usize>
    ensures { Adds (byte ∷ []) put out.old result out.new }
{
    then(out, put, |rest| put_byte(rest, byte))
}

// Writes `src` into `dst` at `at`. `copy_from_slice` was tried: the archive for C then needs `memmove` from outside.
pub fn put_at<T: Copy>(dst: &mut [T], at: usize, src: &[T])
    requires { at + length src.now ≤ length dst.old }
    ensures { dst.new ≡ put_at at src.now dst.old }
{
    for i in 0..src.len() {
        dst[at + i] = src[i];
    }
}

// Moves the elements from `from` up to `to` by `by` places. With the library's method in its place each caller would prove that anew.
pub fn shift_up<T: Copy>(a: &mut [T], from: usize, to: usize, by: usize)
    requires from_le_to { from ≤ to }
    requires by_in_bounds { to + by ≤ length a.old }
    ensures { a.new ≡ moved_up from to by a.old }
{
    a.copy_within(from..to, from + by);
}
