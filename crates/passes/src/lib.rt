// The four filter passes over a height map, as definitions (specs/) and their laws (proofs/). It has no code.
#![tactic(auto)]
