// RESP2 (src/resp.rs): the text of one reply.
#![tactic(auto)]

pub mod reply;
