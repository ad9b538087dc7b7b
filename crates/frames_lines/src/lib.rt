// The lines of `frames`: one read, the pieces of an answer, what a session holds back.
#![tactic(auto)]

pub mod held;
pub mod line;
pub mod pieces;
pub mod quit;
pub mod rest;
