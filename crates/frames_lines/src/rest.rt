// The rest that a session keeps for its next frame: at most 4,096 bytes, at the front of what it is lent.
ghost use Rattle.std.specs.Prelude.{◌≡◌};
ghost use Rattle.frames_lines.specs.Rest.{Within, moved, Keeps};

// Moves the bytes from `from` to `to` to the front: `copy_within`, with what it leaves told for two callers.
pub fn move_down(held: &mut [u8], from: usize, to: usize)
    requires { Within from to held.old }
    ensures { held.new ≡ moved from to held.old }
{
    held.copy_within(from..to, 0);
}

// Keeps the bytes from `from` to `to` as the rest; a rest above 4,096 bytes is dropped.
#[tactic(auto, using(crate::proofs::RestLaws::keeps_moved), unfolding(crate::specs::Rest::kept_of, crate::specs::Rest::rest_of))]
pub fn keep_rest(held: &mut [u8], from: usize, to: usize) -> Option<usize>
    requires { Within from to held.old }
    ensures { Keeps from to held.old result held.new }
{
    let count = to - from;
    if 4096 < count {
        return None;
    }
    if from == 0 {
        return Some(count);
    }
    move_down(held, from, to);
    Some(count)
}
