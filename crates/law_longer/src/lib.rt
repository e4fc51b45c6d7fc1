// Request 13's laws; no code. The checker as it stood before stands in specs/Former.antt, what it shares with
// today's in proofs/.
#![tactic(auto)]
