// The starred examples of document 01, as one list of what the definitions compute and what the document gives (specs/), and
// the one statement that they agree (proofs/).
#![tactic(auto)]
