// A function of each form that `walks` and `list_walks` have a law for, proved by that law: so the
// MIR that a law speaks of is the one that the compiler makes.
// Its loops by hand, plans beside flags, counts beside lists and repeated `requires` are the forms of
// these laws, so they stay (the laws of `walks` and `list_walks` name each).
#![tactic(auto)]

pub mod compares;
pub mod fills;
pub mod folds;
pub mod plans;
pub mod reads;
pub mod straights;
pub mod writes;
