// Request 05's definitions (specs/) and laws (proofs/); its code stands in `bound_counts` and `bounds`.
#![tactic(auto)]
