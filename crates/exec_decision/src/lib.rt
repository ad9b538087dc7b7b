// What EXEC of a session would give.
#![tactic(auto)]

use group_spec::Verdict;

// What a preview gives: the verdict (`NotTaken`: none is reached), the length of the reply, and the last sequence that EXEC would leave.
#[derive(Clone, Copy)]
pub struct Preview {
    pub verdict: Verdict,
    pub reply: usize,
    pub last: u64,
}
