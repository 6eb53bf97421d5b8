// Pass beginnings and ends: `begin_render_pass`, `end_render_pass`, `begin_compute_pass` and
// `end_compute_pass` of gles/command.rs. The commands are worked out by count and place.
#![tactic(auto)]

mod attach;
pub mod begin;
mod clear;
mod clears;
mod depth;
pub mod end;
pub mod marks;
pub mod opening;
mod place;
pub mod render;
mod resolves;
mod survey;
