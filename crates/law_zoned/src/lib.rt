// Request 14's law of former files; no code. The services as they stood before stand in specs/Before.antt, what they share
// with today's in proofs/.
#![tactic(auto)]
