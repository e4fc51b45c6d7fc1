// Request 08, clauses in any order: the definition (specs/) and the laws (proofs/); there is no code.
#![tactic(auto)]
