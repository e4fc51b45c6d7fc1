// Request 09's definitions (specs/) and laws (proofs/).
#![tactic(auto)]
