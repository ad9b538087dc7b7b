// One request of a frame: what its call answered, as the loop over the frame's requests goes on.
ghost use Rattle.std.specs.Prelude.{◌≡◌, IfOk, Ok, length};
ghost use Rattle.resp_spec.specs.Request.{read_request};
ghost use Rattle.command_spec.specs.Numbers.{answer_numbers};
ghost use Rattle.frames_lines.specs.Quit.{Drops, Told};
ghost use Rattle.frames_console.specs.Steps.{done_with, step_of, replied_after, StepsTo};

use command_spec::{Answer, CallError};
use frames_lines::quit;

// A returned number; no whole request; or a request with the bytes that are done with and those of its reply.
#[derive(Clone, Copy)]
pub enum Step {
    Refused(u64),
    Waits,
    Used(usize, usize),
}

// How many of the bytes are done with: all of them where the request drops the rest. One without reply was empty.
fn done_with(input: &[u8], places: &[u64], used: usize, reply: usize) -> usize
    requires places_len { length places.now ≡ 2048 }
    requires drops { Drops input.now (read_request 1024 input.now) used reply places.now }
    ensures { result ≡ done_with input.now used }
{
    if input.len() <= used {
        return input.len();
    }
    if reply == 0 {
        return used;
    }
    if quit::first_quits(input, places) {
        return input.len();
    }
    used
}

// The step that an answer to the request at the front of `input` makes; `places` holds what was read. An error is refused with its number.
pub fn step_of_any<E: Into<u64>>(input: &[u8], places: &[u64], answer: Result<Answer, E>) -> Step
    requires places_len { length places.now ≡ 2048 }
    requires told { IfOk answer (λ a. Told input.now (answer_numbers (Ok a)) places.now) }
    ensures { StepsTo E.converts input.now answer result }
{
    match answer {
        Err(error) => Step::Refused(error.into()),
        Ok(answer) if answer.used == 0 => Step::Waits,
        Ok(answer) => {
            let done = done_with(input, places, answer.used, answer.reply);
            Step::Used(done, answer.reply)
        }
    }
}

// The step that an answer to the request at the front of `input` makes; `places` holds what was read.
#[tactic(auto, unfolding(crate::specs::Steps::step_of))]
pub fn step_of(input: &[u8], places: &[u64], answer: Result<Answer, CallError>) -> Step
    requires places_len { length places.now ≡ 2048 }
    requires told { Told input.now (answer_numbers answer) places.now }
    ensures { result ≡ step_of input.now (answer_numbers answer) }
{
    step_of_any(input, places, answer)
}

// Whether a reply byte was written, after `count` more.
#[tactic(auto, unfolding(crate::specs::Steps::replied_after))]
pub fn replied_after(replied: bool, count: usize) -> bool
    ensures { result ≡ replied_after replied count }
{
    replied || 0 < count
}

#[cfg(test)]
mod tests {
    use super::*;

    // The reply to a PING takes 7 bytes.
    #[test]
    fn steps_by_answer(rt: HostRuntime) {
        let input = b"PING\r\n";
        let places = [0u64; 2048];
        let refused = step_of(input, &places, Err(CallError::ReplyTooLong));
        assert!(rt; matches!(refused, Step::Refused(3)));
        let waits = step_of(input, &places, Ok(Answer { used: 0, reply: 0 }));
        assert!(rt; matches!(waits, Step::Waits));
        let used = step_of(input, &places, Ok(Answer { used: 6, reply: 7 }));
        assert!(rt; matches!(used, Step::Used(6, 7)));
    }
}
