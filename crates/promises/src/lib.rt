// No function: the promises of the whole, demand 3 above all, as theorems in specs/ and proofs/.
#![tactic(auto)]
