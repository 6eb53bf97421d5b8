// The pipeline calls: render and compute pipelines, and the stencil reference.
#![tactic(auto)]

pub mod compute;
mod moved;
pub mod piped;
pub mod programmed;
pub mod reference;
pub mod render;
pub mod sides;
