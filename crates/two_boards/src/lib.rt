// The same calls on two boards: what is claimed in specs/Claim.antt, and its proof, in proofs/.
#![tactic(auto)]
