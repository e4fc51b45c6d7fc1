// Request 02's definitions (specs/) and laws (proofs/); its code stands in `number_values` and `settings`.
#![tactic(auto)]
