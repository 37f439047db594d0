// A running unit: a unit with what its sheet says to the sequence worked out once, at its start, at a load or where it was handed over, and not for each tick.
// What it replies is defined here; `take_over` makes one of any unit, `running_start` by a start or a load, and `running_tick` has its ticks.
#![tactic(auto)]

use flow::Now;
use sheet::{Answer, Sheet};
use stage::Lengths;

// What it shows and counts, over its sheet and the lengths that its sheet gives: Ok where it fits and goes by them, Err where it does not.
#[derive(Clone, Copy)]
pub struct Running {
    pub sheet: Sheet,
    pub lengths: Result<Lengths, Lengths>,
    pub now: Now,
}

// What a start, a tick and a load reply. Not a `Result`: a refusal has its unit too, by `SameTick` and `SameLoad`.
#[derive(Clone, Copy)]
pub struct Answered {
    pub running: Running,
    pub answer: Answer,
}
