// The errors that a call returns before it does anything.
#![tactic(auto)]

pub mod lent;

ghost use Rattle.std.specs.Prelude.{◌≡◌};
ghost use Rattle.command_spec.specs.Numbers.{number_of};
ghost use Rattle.call_numbers.specs.Lending.{lent_read};
ghost use Rattle.call_numbers.specs.Numbers.{request_number, group_number};

use crate::lent::Lent;
use command_spec::CallError;
use store_commit::valid;
use store_memtable::LAST;

// A call of a session: 1, then 9.
pub fn check_request(session: usize, lent: &Lent) -> Result<(), CallError>
    ensures { number_of result ≡ request_number session (lent_read lent.now) }
{
    if 15 < session {
        return Err(CallError::NoSession);
    }
    if !valid::validate(lent.words, lent.bytes)
        || !session_validity::sessions_ok(
            lent.session_words,
            lent.session_bytes,
            lent.words[LAST],
        )
    {
        return Err(CallError::MemoryUnfit);
    }
    Ok(())
}

// A group call: 9, then 8. `inside` says that no part lies outside its buffer.
pub fn check_group(
    inside: bool,
    members: usize,
    verdicts: usize,
    words: &[u64],
    bytes: &[u8],
) -> Result<(), CallError>
    ensures { number_of result ≡ group_number inside members verdicts words.now bytes.now }
{
    if !valid::validate(words, bytes) {
        return Err(CallError::MemoryUnfit);
    }
    if 64 < members || verdicts < members || !inside {
        return Err(CallError::GroupUnfit);
    }
    Ok(())
}
