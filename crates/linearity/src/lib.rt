// What the calls of the serial passes write over sums and differences of maps, and with right and left before down and
// up, as statements (specs/) and their proofs (proofs/). It has no code.
#![tactic(auto)]
