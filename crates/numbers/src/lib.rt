// A sheet as its numbers, in the order of the table of lines, and the sheet of such numbers: in specs/ the definitions, in proofs/ the laws. The functions
// stand in `graded`, `to_numbers`, `entries` and `from_numbers`.
#![tactic(auto)]
