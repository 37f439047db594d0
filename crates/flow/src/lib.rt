// How one stage follows another: in specs/ the paper's rules of a tick and what is promised of them, in proofs/ the laws. The function stands in `tick`.
#![tactic(auto)]

use stage::Stage;

// What a unit shows, and the count of the call.
#[derive(Clone, Copy)]
pub struct Now {
    pub stage: Stage,
    pub count: u64,
}

// One tick later, and whether the command was allowed. Not a Result: where it was not, the tick passed as with none, by `ticked`.
#[derive(Clone, Copy)]
pub struct Ticked {
    pub now: Now,
    pub allowed: bool,
}
