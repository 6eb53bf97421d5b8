// No recorded list is turned away: what is claimed in specs/Recorded.antt, and its proof, in proofs/.
#![tactic(auto)]
