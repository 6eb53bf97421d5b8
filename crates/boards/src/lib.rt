// Two boards held together (document 02, request 3): whether each draw of two lists fetches alike.
// The contracts cite specs/Alike.antt and specs/Compared.antt.
#![tactic(auto)]

pub mod alike;
pub mod compare;
pub mod settings;
