// Worked instances of what is promised: each bound of demand 3 met with equality on a sheet of its own, and each premise shown to be needed. Statements in
// specs/, computed in proofs/; no function.
#![tactic(auto)]
