// The writes that an EXEC has made so far: rows of parts of the working data, one for each key, ascending.
#![tactic(auto)]

pub mod arguments;
pub mod own;
pub mod write;
