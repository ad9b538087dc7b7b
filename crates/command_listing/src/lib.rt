// The replies of the commands that list the table (`answer_listing`): DBSIZE, KEYS, SCAN, RANGE.
#![tactic(auto)]

pub mod dbsize;
pub mod keys;
pub mod range;
pub mod scan;
