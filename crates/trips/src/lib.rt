// The round trips of sheets and texts: theorems over the definitions of `text`, and no code.
#![tactic(auto)]
