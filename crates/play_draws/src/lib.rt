// Draws, pipelines and bindings of the flat form, played and printed.
#![tactic(auto)]

pub mod binding_lines;
mod draw_lines;
pub mod line;
mod pipeline_lines;
