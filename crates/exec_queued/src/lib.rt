// The commands that write inside EXEC: each reads through the writes before it.
#![tactic(auto)]

pub mod counters;
pub mod live;
pub mod pairs;
pub mod tombstones;

// How far an EXEC has come: the rows of its own writes, the bytes of the data in use, and the reply so far.
#[derive(Clone, Copy)]
pub struct Walked {
    pub rows: usize,
    pub used: usize,
    pub put: Option<usize>,
}
