// A sheet as its numbers, in the order of the table of lines.
#![tactic(auto)]

ghost use Rattle.std.specs.Prelude.{◌≡◌, ◌≤◌, ◌+◌};
ghost use Rattle.std.proofs.lemmas.List.Edits.{sets};
ghost use Rattle.sheet.specs.Zero.{zero_phase, zero_point};
ghost use Rattle.rows.specs.Table.{most_phases, most_points, number_count, place_for};
ghost use Rattle.numbers.specs.Flat.{vehicle_number, phase_numbers, point_numbers, itself, numbers_from, dwell_place, flat_of};

use rows::table::{MOST_PHASES, MOST_POINTS};
use rows::{NUMBERS, table};
use sheet::{Phase, Point, Sheet, Vehicle};

fn vehicle_number(vehicle: Vehicle) -> u32
    ensures { result ≡ vehicle_number vehicle }
{
    match vehicle {
        Vehicle::Car => 0,
        Vehicle::Su => 1,
        Vehicle::Bus => 2,
        Vehicle::Wb50 => 3,
    }
}

// A phase's numbers from a place on.
fn with_phase(v: &mut [u32; NUMBERS], at: usize, p: Phase)
    requires { at + 8 ≤ number_count }
    ensures { v.new ≡ sets v.old at (phase_numbers p) }
{
    v[at] = p.number;
    v[at + 1] = p.green;
    v[at + 2] = p.other;
    v[at + 3] = p.yellow;
    v[at + 4] = p.red;
    v[at + 5] = p.walk;
    v[at + 6] = p.clearance;
    v[at + 7] = p.mode;
}

fn with_point(v: &mut [u32; NUMBERS], at: usize, p: Point)
    requires { at + 2 ≤ number_count }
    ensures { v.new ≡ sets v.old at (point_numbers p) }
{
    v[at] = p.feet;
    v[at + 1] = p.tenths;
}

// Three loops and not one of a type parameter: a closure from an entry to its numbers would put its own contract into each call, for loops of one line.
fn with_phases(v: &mut [u32; NUMBERS], phases: [Phase; MOST_PHASES])
    ensures { v.new ≡ sets v.old (place_for "phase") (numbers_from phase_numbers zero_phase most_phases 0 phases) }
{
    for i in 0..MOST_PHASES {
        with_phase(v, table::PHASE + 8 * i, phases[i]);
    }
}

fn with_dwell(v: &mut [u32; NUMBERS], dwell: [u32; MOST_PHASES])
    ensures { v.new ≡ sets v.old (dwell_place 0) (numbers_from itself 0 most_phases 0 dwell) }
{
    for i in 0..MOST_PHASES {
        v[table::DWELL + 1 + i] = dwell[i];
    }
}

fn with_points(v: &mut [u32; NUMBERS], points: [Point; MOST_POINTS])
    ensures { v.new ≡ sets v.old (place_for "point") (numbers_from point_numbers zero_point most_points 0 points) }
{
    for i in 0..MOST_POINTS {
        with_point(v, table::POINT + 2 * i, points[i]);
    }
}

// The sheet's numbers in the rows' order.
pub fn flat(s: Sheet) -> [u32; NUMBERS]
    ensures { result ≡ flat_of s }
{
    let mut v = [0u32; NUMBERS];
    v[table::ISSUE] = s.issue;
    v[table::VEHICLE] = vehicle_number(s.vehicle);
    v[table::GRADE] = graded::grade_number(s.grade);
    v[table::GRADE2] = graded::grade_number(s.grade2);
    v[table::L01] = s.l01;
    v[table::L02] = s.l02;
    v[table::PHASES] = s.phase_count;
    v[table::TRACK] = s.track_yellow;
    v[table::TRACK_RED] = s.track_red;
    v[table::DWELL] = s.dwell_count;
    v[table::L18] = s.l18;
    v[table::L19] = s.l19;
    v[table::L20] = s.l20;
    v[table::L28] = s.l28;
    v[table::L30] = s.l30;
    v[table::L31] = s.l31;
    v[table::L33] = s.l33;
    v[table::L37] = s.l37;
    v[table::L39] = s.l39;
    v[table::L47] = s.l47;
    v[table::L56] = s.l56;
    v[table::L57] = s.l57;
    v[table::L58] = s.l58;
    v[table::POINTS] = s.point_count;
    with_phases(&mut v, s.phases);
    with_dwell(&mut v, s.dwell);
    with_points(&mut v, s.points);
    v
}
