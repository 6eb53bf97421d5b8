// The flat form of a session: lines of decimal numbers, as tools/oracle/README.md has it. What a
// line says is read from left to right into the arguments of a call.
#![tactic(auto)]

pub mod call;
mod fixed;
pub mod group;
mod inner;
mod layout;
pub mod line;
pub mod lines;
pub mod pass;
pub mod pipeline;
mod place;
pub mod runs;
pub mod small;
mod targets;
mod vertex;
mod view;
