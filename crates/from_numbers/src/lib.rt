// The sheet of its numbers.
#![tactic(auto)]

ghost use Rattle.std.specs.Prelude.{◌≡◌};
ghost use Rattle.numbers.specs.Flat.{vehicle_of, grade_of, sheet_of};

use rows::{NUMBERS, table};
use sheet::{Sheet, Vehicle};
use std::array;

#[tactic(auto, unfolding(numbers::specs::Flat::vehicle_of, units::specs::Numbers::pick))]
fn vehicle_of(x: u32) -> Vehicle
    ensures { result ≡ vehicle_of x }
{
    match x {
        1 => Vehicle::Su,
        2 => Vehicle::Bus,
        3 => Vehicle::Wb50,
        _ => Vehicle::Car,
    }
}

#[tactic(auto, unfolding(numbers::specs::Flat::grade_of, units::specs::Numbers::pick))]
fn grade_of(x: u32) -> i16
    ensures { result ≡ grade_of x }
{
    if x < 1000000 {
        -(((1000000 - x) % 1000) as i16)
    } else {
        ((x - 1000000) % 1000) as i16
    }
}

// The sheet of the numbers.
pub fn sheet_of(numbers: &[u32; NUMBERS]) -> Sheet
    ensures { result ≡ sheet_of numbers.now }
{
    Sheet {
        issue: numbers[table::ISSUE],
        vehicle: vehicle_of(numbers[table::VEHICLE]),
        grade: grade_of(numbers[table::GRADE]),
        grade2: grade_of(numbers[table::GRADE2]),
        l01: numbers[table::L01],
        l02: numbers[table::L02],
        phase_count: numbers[table::PHASES],
        phases: array::from_fn(|i| entries::phase_at(numbers, i)),
        track_yellow: numbers[table::TRACK],
        track_red: numbers[table::TRACK_RED],
        dwell_count: numbers[table::DWELL],
        dwell: entries::list_at(numbers, table::DWELL_ROW),
        l18: numbers[table::L18],
        l19: numbers[table::L19],
        l20: numbers[table::L20],
        l28: numbers[table::L28],
        l30: numbers[table::L30],
        l31: numbers[table::L31],
        l33: numbers[table::L33],
        l37: numbers[table::L37],
        l39: numbers[table::L39],
        l47: numbers[table::L47],
        l56: numbers[table::L56],
        l57: numbers[table::L57],
        l58: numbers[table::L58],
        point_count: numbers[table::POINTS],
        points: array::from_fn(|i| entries::point_at(numbers, i)),
    }
}
