// The GL machine and what a draw finds on it: definitions, in specs/, and laws of playing a list, in
// proofs/.
#![tactic(auto)]
