// The records of the recorder: commands, what the calls are handed, the limits.
#![tactic(auto)]

pub mod args;
pub mod binding;
pub mod check;
pub mod command;
pub mod limits;
pub mod outcome;
pub mod pass;
pub mod pipeline;
pub mod same;
pub mod state;
