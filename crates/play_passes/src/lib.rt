// Passes and transfers of the flat form, played and printed.
#![tactic(auto)]

pub mod line;
mod pass_lines;
pub mod transfer_lines;
