// The calls of a job, as definitions (specs/): start, the task call, lists of task calls, and lists of task calls and
// recalls; and demand 3 of both (proofs/). It has no code.
#![tactic(auto)]
