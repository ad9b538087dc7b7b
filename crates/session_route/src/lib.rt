// A request on one session's lent words and bytes (document 01, section 7): all but the commands themselves.
#![tactic(auto)]

pub mod answers;
pub mod local;
pub mod queueing;
pub mod routes;
pub mod steer;
#[cfg(test)]
mod tests;
pub mod watching;
