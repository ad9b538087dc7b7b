// What a command reads of keys, through writes of its own over the store at a sequence, and the replies that depend on it.
#![tactic(auto)]

pub mod counter;
pub mod live;
pub mod reader;
pub mod values;
