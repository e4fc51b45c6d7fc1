// Request 03, variable numbers used again: a second form of the typing of a clause, and the rule as it stood before. Definitions in
// specs/ and laws in proofs/; there is no code.
#![tactic(auto)]
