// What holds only zeros: a phase, a point, a sheet. Written out and not derived as `Default`, which would say less: nothing else asks for a vehicle that
// stands for none.
#![tactic(auto)]

ghost use Rattle.std.specs.Prelude.{◌≡◌};
ghost use Rattle.sheet.specs.Zero.{zero_phase, zero_point, zero_sheet};

use sheet::{Phase, Point, Sheet, Vehicle};

pub fn zero_phase() -> Phase
    ensures { result ≡ zero_phase }
{
    Phase {
        number: 0,
        green: 0,
        other: 0,
        yellow: 0,
        red: 0,
        walk: 0,
        clearance: 0,
        mode: 0,
    }
}

pub fn zero_point() -> Point
    ensures { result ≡ zero_point }
{
    Point { feet: 0, tenths: 0 }
}

// Only zeros, vehicle car: what a refused reading gives beside its number.
pub fn zero_sheet() -> Sheet
    ensures { result ≡ zero_sheet }
{
    Sheet {
        issue: 0,
        vehicle: Vehicle::Car,
        grade: 0,
        grade2: 0,
        l01: 0,
        l02: 0,
        phase_count: 0,
        phases: [zero_phase(); 8],
        track_yellow: 0,
        track_red: 0,
        dwell_count: 0,
        dwell: [0; 8],
        l18: 0,
        l19: 0,
        l20: 0,
        l28: 0,
        l30: 0,
        l31: 0,
        l33: 0,
        l37: 0,
        l39: 0,
        l47: 0,
        l56: 0,
        l57: 0,
        l58: 0,
        point_count: 0,
        points: [zero_point(); 16],
    }
}
