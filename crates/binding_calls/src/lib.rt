// Bind groups and immediates.
#![tactic(auto)]

pub mod grouped;
pub mod groups;
pub mod immediates;
pub mod sending;
