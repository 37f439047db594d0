// The paper's own rules of single lines (22, 38, 51, 59), of what pedestrians wait for, and of a tick: in specs/ the rules and what is promised, in proofs/ the laws. The functions stand in `ruled`.
#![tactic(auto)]
