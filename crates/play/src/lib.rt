// Sessions in the flat form, played line by line and printed.
#![tactic(auto)]

pub mod line;
