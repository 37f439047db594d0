// The acceleration time over a distance: in specs/ the rules of it and what is promised, in proofs/ the laws. The functions stand in `acceleration`.
#![tactic(auto)]
