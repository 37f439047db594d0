// A stage as plain numbers: for who keeps a unit, or hands one over. `to_state` has the numbers of a stage, `from_state` the stage of such numbers.
#![tactic(auto)]

// The kind of stage: 0 track green, 1 and 2 the track's yellow and red, 3 a phase, 4 a phase that was asked to end, 5 track clearance green, 6 dwell's
// all red. The place: 0 normal operation, 1 a train's, where a phase is one of dwell. What follows: 0 track green, 1 the phase `next`, 2 track clearance
// green, 3 dwell or track green as the call is then, 4 dwell's all red. The phase shown; its light, 0 green, 1 yellow, 2 red; the ticks spent in it, or
// in the track's interval; its walker, 0 walk, 1 clearance, and the ticks of that. What a stage does not have is 0.
// Numbers and not enums: they are what `lettofrisk_unit` hands to C, in `stage_numbers` and `times_of`.
#[derive(Clone, Copy)]
pub struct State {
    pub kind: u32,
    pub place: u32,
    pub follows: u32,
    pub next: u32,
    pub phase: u32,
    pub light: u32,
    pub spent: u64,
    pub walker: u32,
    pub walked: u64,
}
