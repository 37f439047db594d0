// No function: what is wrong with a sheet, as the paper defines it, in specs/, and the laws of it in proofs/.
#![tactic(auto)]
