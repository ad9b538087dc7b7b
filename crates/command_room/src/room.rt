// Room for the writes of one command, and the answer that the verdict and the reply make.
ghost use Rattle.std.specs.Prelude.{◌≡◌, ◌-◌, ◌*◌, ◌≤◌, Ok, Err, IfErr, OnErr, OnOk, IfSome, IfNone, IsErrAnd, length, replicate};
ghost use Rattle.base_key.specs.Bytes.{total};
ghost use Rattle.store_memtable.specs.Layout.{used_word, most_bytes_word};
ghost use Rattle.store_memtable.specs.Rows.{bytes_left};
ghost use Rattle.command_spec.specs.Places.{lengths_at};
ghost use Rattle.group_spec.specs.declared.Verdict.{Verdict};
ghost use Rattle.group_spec.specs.Group.{verdict_byte};
ghost use Rattle.command_room.specs.Writes.{HeaderIn, verdict_left, verdict_answer};
ghost use Rattle.command_room.specs.Served.{buffer_after};
ghost use Rattle.command_spec.specs.Numbers.{answer_numbers, number_of};

use command_spec::{Answer, CallError};
use store_memtable::{LAST, read};

// What the arguments from place `from` to `to` leave of `left` bytes.
pub fn lengths_left(places: &[u64], from: usize, to: usize, left: usize) -> Option<usize>
    requires to_in_bounds { 2 * to ≤ length places.now }
    requires from_le_to { from ≤ to }
    ensures { result ≡ bytes_left left (total (lengths_at from (to - from) places.now)) }
{
    let mut rest = left;
    for i in from..to {
        let len = read::word(places, 2 * i + 1);
        if rest < len {
            return None;
        }
        rest -= len;
    }
    Some(rest)
}

// The bytes that are free.
pub fn free_bytes(words: &[u64]) -> usize
    requires { HeaderIn words.now }
    ensures { result ≡ most_bytes_word words.now - used_word words.now }
{
    read::word(words, 4) - read::word(words, 1)
}

// Is there room for `writes` writes, by what their bytes leave of the free ones, and are there sequences?
pub fn check_room(words: &[u64], writes: usize, left: Option<usize>) -> Result<(), CallError>
    requires { HeaderIn words.now }
    ensures { number_of result ≡ verdict_byte (verdict_left words.now writes left) }
{
    left.ok_or(CallError::NoRoom)?;
    if read::word(words, 3) - read::word(words, 0) < writes {
        return Err(CallError::NoRoom);
    }
    if !group_judge::has_sequences(words[LAST], writes) {
        return Err(CallError::NoSequence);
    }
    Ok(())
}

// The answer after a check, with the reply that was put: its error comes before a reply that is too long, and clears the buffer.
pub fn checked_answer<E: From<CallError>>(
    out: &mut [u8],
    checked: Result<(), E>,
    put: Option<usize>,
    used: usize,
) -> Result<Answer, E>
    ensures refused { IfErr checked (λ error. result ≡ Err error) }
    ensures cleared { OnErr checked (out.new ≡ replicate (length out.old) 0) }
    ensures answered { OnOk checked (IfSome put (λ reply. result ≡ Ok (record { used = used; reply = reply }))) }
    ensures too_long { OnOk checked (IfNone put (IsErrAnd result (λ error. E.from_gives CallError.ReplyTooLong error))) }
    ensures kept { OnOk checked (out.new ≡ out.old) }
{
    if let Err(error) = checked {
        return command_answer::refuse(out, error);
    }
    Ok(command_answer::put_answer(put, used)?)
}

// The answer after the look at the room.
pub fn room_answer(
    out: &mut [u8],
    checked: Result<(), CallError>,
    put: Option<usize>,
    used: usize,
) -> Result<Answer, CallError>
    ensures value { (v : Verdict) → number_of checked ≡ verdict_byte v → answer_numbers result ≡ verdict_answer v put used }
    ensures out_after { (v : Verdict) → number_of checked ≡ verdict_byte v → out.new ≡ buffer_after v out.old }
    ensures refused { IfErr checked (λ error. result ≡ Err error) }
    ensures cleared { OnErr checked (out.new ≡ replicate (length out.old) 0) }
{
    checked_answer(out, checked, put, used)
}
