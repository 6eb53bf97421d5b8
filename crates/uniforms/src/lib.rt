// What the uniforms hold: the machine, what the accepted calls alone tell, the claim (specs/), and the
// theorems that have it (proofs/). Only definitions and proofs.
#![tactic(auto)]
