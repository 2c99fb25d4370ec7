// The totals that an operator reads: rectangle sums on the table that a whole job made are the heights' sums, as a
// statement (specs/) and its proof (proofs/). It has no code.
#![tactic(auto)]
