// The lent store: its validity, opening, and the commit of a write.
#![tactic(auto)]

pub mod commit;
pub mod lent;
pub mod merge;
pub mod open;
pub mod valid;
