// The calls of one command or none: settings, dispatches, queries, texture barriers.
#![tactic(auto)]

pub mod barriers;
pub mod dispatches;
pub mod one;
pub mod queries;
pub mod settings;
