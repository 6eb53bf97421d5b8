// The beginnings and the ends of passes.
#![tactic(auto)]

pub mod begins;
pub mod begun_compute;
pub mod begun_render;
pub mod ended;
pub mod ends;
pub mod marked;
