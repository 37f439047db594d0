// The stage that a unit shows, what follows it, and the commands: types, and in specs/ the paper's rules of them. The functions stand in `lookup`,
// `normal`, `times`, `fitness` and `commands`.
#![tactic(auto)]

use phase::{Light, Walker};

// Normal operation; or a train's, from track clearance green to the end of dwell.
#[derive(Clone, Copy)]
pub enum Place {
    Normal,
    Train,
}

// What follows where a stage is over: track green in normal operation, which is next 0 there; a phase, in the same place; the track clearance green
// that is owed once the transfer has begun; dwell's all red, which is next 0 in dwell; or, as the call is then, dwell's all red if it is on and track
// green if it is off.
#[derive(Clone, Copy)]
pub enum Then {
    ToTrack,
    ToPhase(u32),
    ToClearance,
    ToAllRed,
    ToDwell,
}

// Each stage with its interval's ticks spent. One that is over of itself has what follows with it: the track's yellow and red, in normal
// operation and after track clearance green, and a phase that was asked to end. A phase in place Train is one of dwell, and all red is what
// dwell shows without a phase.
#[derive(Clone, Copy)]
pub enum Stage {
    TrackGreen,
    TrackYellow {
        place: Place,
        then: Then,
        spent: u64,
    },
    TrackRed {
        place: Place,
        then: Then,
        spent: u64,
    },
    Open {
        place: Place,
        phase: u32,
        green: u64,
        walk: u64,
    },
    Ending {
        place: Place,
        phase: u32,
        then: Then,
        light: Light,
        walker: Walker,
    },
    ClearanceGreen {
        spent: u64,
    },
    AllRed,
}

// None, or end with the number that is next; 0 is the track, and in dwell all red. It has the shape of an Option, which would be no plainer: these are
// the paper's two commands, and `End(4)` says what `Some(4)` does not.
#[derive(Clone, Copy)]
pub enum Command {
    None,
    End(u32),
}

// What the sequence goes by, in ticks: how long the call must be seen on, how long track clearance green lasts, and the track's yellow and red. They go
// beside the sheet, and not with it in one struct, which would be no plainer: the laws of a tick hold for any lengths on any sheet, and say so.
#[derive(Clone, Copy)]
pub struct Lengths {
    pub l03: u64,
    pub l51: u64,
    pub track_yellow: u64,
    pub track_red: u64,
}
