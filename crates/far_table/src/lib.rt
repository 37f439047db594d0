// The far times, past 400 ft: in specs/ the table, and that no column falls, in proofs/ the laws. The function stands in `far_columns`.
#![tactic(auto)]
