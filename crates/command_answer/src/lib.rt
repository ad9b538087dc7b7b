// The answer to a request, from the reply that was put into its buffer.
#![tactic(auto)]

ghost use Rattle.std.specs.Prelude.{◌≡◌, Err, length, replicate};
ghost use Rattle.command_spec.specs.Numbers.{answer_numbers};
ghost use Rattle.command_answer.specs.Answers.{put_answer};

use command_spec::{Answer, CallError};

// The answer to a request whose reply was put: `ReplyTooLong` where it does not fit.
#[tactic(auto, unfolding(crate::specs::Answers::put_answer))]
pub fn put_answer(put: Option<usize>, used: usize) -> Result<Answer, CallError>
    ensures { answer_numbers result ≡ put_answer put used }
{
    let reply = put.ok_or(CallError::ReplyTooLong)?;
    Ok(Answer { used, reply })
}

// An error in place of the reply that was put.
pub fn refuse<E>(out: &mut [u8], error: E) -> Result<Answer, E>
    ensures value { result ≡ Err error }
    ensures out_after { out.new ≡ replicate (length out.old) 0 }
{
    base_writing::clear(out);
    Err(error)
}
