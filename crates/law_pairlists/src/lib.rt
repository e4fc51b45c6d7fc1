// Request 07's definitions (specs/) and laws (proofs/); its code stands in `list_entries`, `list_writing`,
// `list_lines`, `list_file`, `list_targets`, `imports` and `exports`.
#![tactic(auto)]
