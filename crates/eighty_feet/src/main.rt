// Document 002's example: a WB-50 takes 12.2 seconds over 80 ft of level road. A sheet whose line 23 is 80 ft, with that point; printed: its line 24, level and at 4 percent uphill, in tenths.
#![tactic(auto)]

use sheet::{Phase, Point, Sheet, Vehicle};
use std::io;

fn phases() -> [Phase; 8] {
    let mut phases = [zeros::zero_phase(); 8];
    phases[0] = Phase {
        number: 2,
        green: 50,
        other: 0,
        yellow: 40,
        red: 20,
        walk: 0,
        clearance: 0,
        mode: 0,
    };
    phases
}

fn points() -> [Point; 16] {
    let mut points = [zeros::zero_point(); 16];
    points[1] = Point {
        feet: 80,
        tenths: 122,
    };
    points
}

fn example(grade: i16) -> Sheet {
    Sheet {
        issue: 1,
        vehicle: Vehicle::Wb50,
        grade,
        grade2: grade,
        l01: 0,
        l02: 2,
        phase_count: 1,
        phases: phases(),
        track_yellow: 40,
        track_red: 20,
        dwell_count: 0,
        dwell: [0u32; 8],
        l18: 60,
        l19: 25,
        l20: 55,
        l28: 40,
        l30: 200,
        l31: 0,
        l33: 270,
        l37: 125,
        l39: 150,
        l47: 0,
        l56: 30,
        l57: 120,
        l58: 40,
        point_count: 2,
        points: points(),
    }
}

fn line_24(grade: i16) -> u64 {
    let worked = form::worksheet(example(grade));
    ruled::ticks(worked.lines.l24)
}

fn main(rt: HostRuntime) -> io::Result<()> {
    println!(rt; "level: {}", line_24(0))?;
    println!(rt; "4 percent: {}", line_24(40))
}
