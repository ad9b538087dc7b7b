// EXEC: the mark, the watched keys, and the queued commands run; applied, or only looked at.
#![tactic(auto)]

pub mod answers;
pub mod decide;
pub mod layout;
pub mod preview;
pub mod queued;
pub mod transaction;
