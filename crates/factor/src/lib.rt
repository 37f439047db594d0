// The factor for slower acceleration uphill, by Table 628-B, as an exact fraction: in specs/ the paper's rules of it and what is promised, in proofs/ the laws. The function stands in `grade_factor`.
#![tactic(auto)]
