// A reply that leaves store and session.
ghost use Rattle.std.specs.Prelude.{◌≡◌, length, replicate};
ghost use Rattle.command_spec.specs.Errors.{arity_of};
ghost use Rattle.session_route.specs.Answers.{changing, same, Unchanged};
ghost use Rattle.command_spec.specs.Numbers.{answer_numbers};

use command_spec::{Answer, CallError};

// The error for a wrong argument count of the command `word`, which leaves store and session.
pub fn reply_arity(out: &mut [u8], word: &[u8], used: usize) -> Result<Answer, CallError>
    requires { out.old ≡ replicate (length out.old) 0 }
    ensures { Unchanged (changing (arity_of word.now) same) used out.old (answer_numbers result) out.new }
{
    let error = command_errors::put_arity(out, word);
    command_answer::put_answer(error, used)
}
