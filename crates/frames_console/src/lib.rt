// The work of the program `frames` on a page: a line begun and ended, and the requests of a frame served.
#![tactic(auto)]

pub mod frame;
pub mod serve;
pub mod step;
