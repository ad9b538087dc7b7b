// The verdict on the writes of one command, and their commit.
#![tactic(auto)]

pub mod commit;
pub mod room;
