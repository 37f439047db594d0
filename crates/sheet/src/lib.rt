// The site sheet as values, the refusals, and the answer that says one of them; in specs/ the numbers of the refusals. The functions stand in `answers` and
// `zeros`.
#![tactic(auto)]

ghost use Rattle.std.specs.Prelude.{◌≡◌, take};
ghost use Rattle.sheet.specs.Entries.{listed_phases, listed_points, dwell_numbers};

#[derive(Clone, Copy)]
pub enum Vehicle {
    Car,
    Su,
    Bus,
    Wb50,
}

#[derive(Clone, Copy)]
pub struct Phase {
    pub number: u32,
    pub green: u32,
    pub other: u32,
    pub yellow: u32,
    pub red: u32,
    pub walk: u32,
    pub clearance: u32,
    pub mode: u32,
}

#[derive(Clone, Copy)]
pub struct Point {
    pub feet: u32,
    pub tenths: u32,
}

// The lines of the text in their order. Entries of an array past its count are no part of the sheet. Arrays with their counts, and no lists: memory is fixed, and
// a sheet handed over as values may count past its arrays, which is refused by number at the count's own line.
#[derive(Clone, Copy)]
pub struct Sheet {
    pub issue: u32,
    pub vehicle: Vehicle,
    pub grade: i16,
    pub grade2: i16,
    pub l01: u32,
    pub l02: u32,
    pub phase_count: u32,
    pub phases: [Phase; 8],
    pub track_yellow: u32,
    pub track_red: u32,
    pub dwell_count: u32,
    pub dwell: [u32; 8],
    pub l18: u32,
    pub l19: u32,
    pub l20: u32,
    pub l28: u32,
    pub l30: u32,
    pub l31: u32,
    pub l33: u32,
    pub l37: u32,
    pub l39: u32,
    pub l47: u32,
    pub l56: u32,
    pub l57: u32,
    pub l58: u32,
    pub point_count: u32,
    pub points: [Point; 16],
}

// The first `count` entries, which is all of them where it counts more.
pub fn counted<T>(entries: &[T], count: u32) -> &[T]
    ensures { result.now ≡ take count entries.now }
{
    let n = usize::min(count as usize, entries.len());
    &entries[..n]
}

impl Sheet {
    pub fn listed_phases(&self) -> &[Phase]
        ensures { result.now ≡ listed_phases self.now }
    {
        counted(&self.phases, self.phase_count)
    }

    pub fn listed_points(&self) -> &[Point]
        ensures { result.now ≡ listed_points self.now }
    {
        counted(&self.points, self.point_count)
    }

    pub fn dwell_numbers(&self) -> &[u32]
        ensures { result.now ≡ dwell_numbers self.now }
    {
        counted(&self.dwell, self.dwell_count)
    }
}

// A case for each number of the paper's table, in its order: 1 to 11, 12, then 20 to 23.
#[derive(Clone, Copy)]
pub enum Refusal {
    Malformed,
    OutOfRange,
    PhasesDontRise,
    PointsDontRise,
    PedestriansInModeZero,
    ClearanceTooShort,
    RelocationBeyondStorage,
    WarningTooShort,
    RelocationTooFar,
    TrackLongerThanTransfer,
    NoRoom,
    DwellPhaseNotListed,
    UnitUnfit,
    LoadNotNow,
    IssueNotNewer,
    CommandNotAllowed,
}

// A refusal with its line of the text; 0 where it has none.
#[derive(Clone, Copy)]
pub struct Refused {
    pub refusal: Refusal,
    pub line: u32,
}

// Fine, or refused.
pub type Answer = Result<(), Refused>;
