// Table 628-B: in specs/ as printed, and that no column falls, in proofs/ the laws. The function stands in `columns`.
#![tactic(auto)]
