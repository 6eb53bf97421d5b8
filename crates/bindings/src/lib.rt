// Bind groups, samplers and immediates: `set_bind_group`, `rebind_sampler_states` and
// `set_immediates` of gles/command.rs.
#![tactic(auto)]

mod entry;
mod entry_command;
mod entry_state;
pub mod group;
pub mod group_command;
pub mod immediate_command;
pub mod immediates;
pub mod sweep;
pub mod units;
