// Request 11's laws; no code. The verdict without the test stands in specs/Former.antt; what is promised of verdicts and
// idle lines in proofs/Former.antt, of every service in proofs/Services.antt.
#![tactic(auto)]
