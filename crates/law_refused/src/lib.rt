// Laws of every service at once; no code. Each service by its file's verdict stands in specs/ByVerdict.antt, what it
// answers for a refused file in specs/Refused.antt.
#![tactic(auto)]
