// The published calls: opening a store, a request of a session, a preview of its EXEC, and a group of members.
#![tactic(auto)]

pub mod group;
pub mod open;
pub mod preview;
pub mod request;
