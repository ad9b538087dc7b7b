// Reading a request from the bytes of a connection (src/resp.rs).
#![tactic(auto)]

pub mod request;
