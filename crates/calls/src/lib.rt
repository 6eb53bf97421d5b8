// What all calls share, and the calls that write no run.
#![tactic(auto)]

pub mod batch;
pub mod encoding;
pub mod judge;
pub mod parts;
pub mod phase;
