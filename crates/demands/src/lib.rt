// The three demands, as statements about what the services answer and leave (specs/), and their proofs (proofs/). No code.
#![tactic(auto)]
