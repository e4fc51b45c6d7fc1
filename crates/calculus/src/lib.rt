// The paper's calculus as definitions, and its laws; no code.
#![tactic(auto)]
