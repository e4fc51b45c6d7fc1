// The clauses and isos that the table's rows hold, and a walk over those rows: definitions (specs/) and laws (proofs/); its code
// stands in `check_isos`, `run_index` and `fault_values`.
#![tactic(auto)]
