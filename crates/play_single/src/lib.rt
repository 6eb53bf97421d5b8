// Calls of the flat form that record one command at most, played and printed.
#![tactic(auto)]

mod dispatch_lines;
mod encoding_lines;
pub mod line;
mod one;
mod query_lines;
mod setting_lines;
