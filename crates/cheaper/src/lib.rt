// Draws in a cheaper order: document 02, request 10.
#![tactic(auto)]

mod order;
pub mod pieces;
pub mod search;
