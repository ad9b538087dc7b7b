// The requests that steer a session: one reply, and a change of its head. A reply that does not fit changes nothing.
ghost use Rattle.std.specs.Prelude.{◌≡◌, length, get_or, replicate};
ghost use Rattle.command_spec.specs.declared.Fixed.TheVariants as fixed;
ghost use Rattle.command_spec.specs.Session.{marked, not_queueable};
ghost use Rattle.command_spec.specs.Errors.{fixed_reply, arity_of};
ghost use Rattle.command_spec.specs.Held.{Left};
ghost use Rattle.session_route.specs.Answers.{changing, Steered, Marks};
ghost use Rattle.session_route.specs.Routes.{change_of, reply_of, step_done, Steerable};
ghost use Rattle.command_spec.specs.Numbers.{answer_numbers};

use crate::routes::Step;
use command_spec::{Answer, CallError, Fixed};

// The reply of a step.
fn reply_of(step: Step) -> Fixed
    ensures { result ≡ reply_of step }
{
    match step {
        Step::Reply(which) => which,
        _ => Fixed::Ok,
    }
}

// The change of the session's head that a step makes.
fn change(step: Step, words: &mut [u64])
    requires { Steerable step words.old }
    ensures { Left (change_of step) words.old words.new }
{
    // A `match`: the input tells which runs, and no function may hand a closure out.
    match step {
        Step::Open => session_flags::open_multi(words),
        Step::Unwatch => session_flags::unwatch(words),
        Step::Clear => session_flags::clear(words),
        Step::Reply(_) => {}
    }
}

// The answer of an error that was put: it marks the session failed.
fn mark_put(words: &mut [u64], put: Option<usize>, used: usize) -> Result<Answer, CallError>
    requires { length words.old ≡ 644 }
    ensures { Marks put used words.old words.new (answer_numbers result) }
{
    let answer = command_answer::put_answer(put, used)?;
    session_flags::mark_failed(words);
    Ok(answer)
}

// Inside MULTI, a name that may not be queued.
pub fn not_queueable(
    words: &mut [u64],
    word: &[u8],
    out: &mut [u8],
    used: usize,
) -> Result<Answer, CallError>
    requires words_len { length words.old ≡ 644 }
    requires out_value { out.old ≡ replicate (length out.old) 0 }
    ensures { Steered (changing (not_queueable word.now) marked) words.old words.new used out.old (answer_numbers result) out.new }
{
    let put = command_errors::put_not_queueable(out, word);
    mark_put(words, put, used)
}

// Inside MULTI, a wrong argument count of the command `word`.
pub fn refuse_count(
    words: &mut [u64],
    word: &[u8],
    out: &mut [u8],
    used: usize,
) -> Result<Answer, CallError>
    requires words_len { length words.old ≡ 644 }
    requires out_value { out.old ≡ replicate (length out.old) 0 }
    ensures { Steered (changing (arity_of word.now) marked) words.old words.new used out.old (answer_numbers result) out.new }
{
    let put = command_errors::put_arity(out, word);
    mark_put(words, put, used)
}

// Inside MULTI, SET with options.
pub fn refuse_options(words: &mut [u64], out: &mut [u8], used: usize) -> Result<Answer, CallError>
    requires words_len { length words.old ≡ 644 }
    requires out_value { out.old ≡ replicate (length out.old) 0 }
    ensures { Steered (changing (fixed_reply fixed.SetOptions) marked) words.old words.new used out.old (answer_numbers result) out.new }
{
    let put = command_errors::put_fixed(out, Fixed::SetOptions);
    mark_put(words, put, used)
}

// A request that steers the session.
pub fn steer(
    step: Step,
    words: &mut [u64],
    out: &mut [u8],
    used: usize,
) -> Result<Answer, CallError>
    requires steerable { Steerable step words.old }
    requires out_value { out.old ≡ replicate (length out.old) 0 }
    ensures { Steered (step_done step) words.old words.new used out.old (answer_numbers result) out.new }
{
    let put = command_errors::put_fixed(out, reply_of(step));
    let answer = command_answer::put_answer(put, used)?;
    change(step, words);
    Ok(answer)
}
