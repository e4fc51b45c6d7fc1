// Run: one iso of a file applied to a closed value, forward or back.
#![tactic(auto)]

// the run on a checked table, and the service
pub mod run;
