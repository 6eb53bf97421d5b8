// The calls that read a run of barriers, of copies or of queries: `transition_buffers`,
// `copy_buffer_to_buffer`, `copy_query_results`.
#![tactic(auto)]

pub mod barriers;
pub mod regions;
pub mod resolved;
pub mod results;
mod threes;
pub mod transfers;
