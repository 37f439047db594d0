// Whether a sheet is accepted: refusals 2 to 6 line by line, then 7 to 10 and 12 on the whole. The lines are looked at where the sheet has their values, in the order and
// with the ranges of the table of lines.
#![tactic(auto)]

ghost use Rattle.std.specs.Prelude.{◌≡◌, ◌+◌, ◌-◌, ◌≤◌, ◌<◌, eqb};
ghost use Rattle.units.specs.Numbers.{pick};
ghost use Rattle.rows.specs.Table.{row_count, first_phase, first_point, most_phases, most_points};
ghost use Rattle.numbers.specs.Flat.{flat_of};
ghost use Rattle.faults.specs.Lines.{starts_at_zero, point_rises, fault_from};
ghost use Rattle.faults.specs.Whole.{accept_of};
ghost use Rattle.faults.proofs.Accepted.{after_phases, between, first_single};
ghost use Rattle.faults.proofs.Values.{one_fault, ones_of, point_line};

use answers::refuse_unless;
use graded::grade_number;
use ranges::{fits, row_fits};
use rows::table::{DWELL_ROW, MOST_PHASES, SINGLE_ROW, TRACK_ROW};
use rows::{FIRST_POINT, table};
use sheet::{Answer, Point, Refusal, Sheet};

// The line of a row where so many rows before it are no lines of the text.
fn line_of(row: usize, absent: u32) -> u32
    requires { (row < row_count) × (absent ≤ row) }
    ensures { result ≡ row + 1 - absent }
{
    (row + 1) as u32 - absent
}

// The fault of a row that has one number, x.
fn one_fault(row: usize, x: u32, absent: u32) -> Answer
    requires { (row < row_count) × (absent ≤ row) }
    ensures { result ≡ one_fault row x absent }
{
    refuse_unless(fits(row, 0, x), Refusal::OutOfRange, line_of(row, absent))
}

// The rows before the phases. A vehicle is never out of its range.
#[tactic(auto, using(crate::proofs::Stretches::head_rows), unfolding(sheet::specs::Refusals::or_else))]
fn head_fault(s: Sheet) -> Answer
    ensures { result ≡ fault_from (flat_of s) first_phase 0 1 }
{
    one_fault(table::ISSUE, s.issue, 0)?;
    one_fault(table::GRADE, grade_number(s.grade), 0)?;
    one_fault(table::GRADE2, grade_number(s.grade2), 0)?;
    one_fault(table::L01, s.l01, 0)?;
    one_fault(table::L02, s.l02, 0)?;
    one_fault(table::PHASES, s.phase_count, 0)
}

// How many rows of one number stand past the list for dwell, and their first fault.
const SINGLES: usize = FIRST_POINT - SINGLE_ROW;

fn singles_fault(numbers: [u32; SINGLES], absent: u32) -> Answer
    requires { absent ≤ most_phases }
    ensures { result ≡ ones_of numbers first_single absent }
{
    for i in 0..SINGLES {
        one_fault(SINGLE_ROW + i, numbers[i], absent)?;
    }
    Ok(())
}

// The rows from the track to the number of points.
#[tactic(auto, using(crate::proofs::Stretches::middle_rows), unfolding(sheet::specs::Refusals::or_else))]
fn middle_fault(s: Sheet, absent: u32) -> Answer
    requires { absent ≤ most_phases }
    ensures { result ≡ fault_from (flat_of s) between after_phases (after_phases + 1 - absent) }
{
    let numbers = [
        s.l18,
        s.l19,
        s.l20,
        s.l28,
        s.l30,
        s.l31,
        s.l33,
        s.l37,
        s.l39,
        s.l47,
        s.l56,
        s.l57,
        s.l58,
        s.point_count,
    ];
    let track = row_fits(TRACK_ROW, &[s.track_yellow, s.track_red]);
    refuse_unless(track, Refusal::OutOfRange, line_of(TRACK_ROW, absent))?;
    dwell_line::dwell_fault(&s, line_of(DWELL_ROW, absent))?;
    singles_fault(numbers, absent)
}

// The first point has none before it.
#[tactic(auto, unfolding(faults::specs::Lines::point_follows, units::specs::Numbers::pick))]
fn point_fits(i: usize, before: Point, p: Point) -> bool
    ensures { result ≡ pick (eqb i 0) (starts_at_zero p) (point_rises before p) }
{
    if i == 0 {
        return entry_rules::point_fits(None, p);
    }
    entry_rules::point_fits(Some(before), p)
}

// Point i, p, after the point `before`.
#[tactic(auto, unfolding(sheet::specs::Refusals::or_else))]
fn point_line(i: usize, before: Point, p: Point, absent: u32) -> Answer
    requires { (i < most_points) × (absent ≤ most_phases) }
    ensures { result ≡ point_line (pick (eqb i 0) (starts_at_zero p) (point_rises before p)) p (first_point + i + 1 - absent) }
{
    let line = line_of(FIRST_POINT + i, absent);
    let inside = row_fits(FIRST_POINT, &[p.feet, p.tenths]);
    refuse_unless(inside, Refusal::OutOfRange, line)?;
    let rises = point_fits(i, before, p);
    refuse_unless(rises, Refusal::PointsDontRise, line)
}

// The walk of `phase_lines` over other entries. One walk for both would take the entry's rule as a closure, whose contract is longer than the walk.
fn points_fault(s: Sheet, absent: u32) -> Answer
    requires { absent ≤ most_phases }
    ensures { result ≡ fault_from (flat_of s) most_points first_point (first_point + 1 - absent) }
{
    let points = s.listed_points();
    let mut before = zeros::zero_point();
    for i in 0..points.len() {
        let p = points[i];
        point_line(i, before, p, absent)?;
        before = p;
    }
    Ok(())
}

// The answer to a sheet handed over as values.
#[tactic(auto, using(crate::proofs::Stretches::all_rows), unfolding(sheet::specs::Refusals::or_else))]
pub fn accept(s: Sheet) -> Answer
    ensures { result ≡ accept_of s }
{
    let absent = (MOST_PHASES as u32).saturating_sub(s.phase_count);
    head_fault(s)?;
    phase_lines::phases_fault(s)?;
    middle_fault(s, absent)?;
    points_fault(s, absent)?;
    whole_fault::whole_fault(s)
}
