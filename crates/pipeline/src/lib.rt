// Render and compute pipelines: `set_pipeline_inner`, `set_render_pipeline` and
// `set_compute_pipeline` of gles/command.rs. The commands are worked out by count and place.
#![tactic(auto)]

pub mod attributes;
mod desc;
pub mod fixed;
pub mod inner;
mod plan;
pub mod render;
pub mod stencil;
mod targets;
pub mod vertex;
