// The acceleration time past 400 ft, by the far times: in specs/ the rules of request 2026-04 and what is promised, in proofs/ the laws. The function stands in `far_time`.
#![tactic(auto)]
