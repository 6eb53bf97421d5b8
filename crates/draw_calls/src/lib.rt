// The draws.
#![tactic(auto)]

mod drawing;
pub mod drawn;
pub mod draws;
