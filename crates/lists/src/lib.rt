// What who looks at a list sees of it: the class of each command, which limits it breaks, and how
// many draws there are.
#![tactic(auto)]

pub mod class;
pub mod limits;
