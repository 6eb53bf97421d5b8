// Reading sessions in the flat form: lines of a reader's bytes, and a session's first line.
#![tactic(auto)]

pub mod header;
pub mod lines;
pub mod wrong;
