// A phase, a point and a list of a sheet's numbers.
#![tactic(auto)]

ghost use Rattle.std.specs.Prelude.{◌≡◌, ◌≤◌, get_or};
ghost use Rattle.rows.specs.Table.{number_count, place_of};
ghost use Rattle.numbers.specs.Flat.{phase_place, point_place, phase_at, point_at, list_numbers};

use rows::table::MOST_PHASES;
use rows::{NUMBERS, table};
use sheet::{Phase, Point};
use std::array;

// A number of the sheet by its place, 0 past the last.
fn number(numbers: &[u32; NUMBERS], at: usize) -> u32
    ensures { result ≡ get_or numbers.now at 0 }
{
    numbers.get(at).copied().unwrap_or(0)
}

// The phase and the point of that place in their arrays; past the end, the zero ones. Each names its own fields, so that one function for both would say no
// less.
pub fn phase_at(numbers: &[u32; NUMBERS], i: usize) -> Phase
    ensures { result ≡ phase_at numbers.now i }
{
    if NUMBERS <= i {
        return zeros::zero_phase();
    }
    let at = table::PHASE + 8 * i;
    Phase {
        number: number(numbers, at),
        green: number(numbers, at + 1),
        other: number(numbers, at + 2),
        yellow: number(numbers, at + 3),
        red: number(numbers, at + 4),
        walk: number(numbers, at + 5),
        clearance: number(numbers, at + 6),
        mode: number(numbers, at + 7),
    }
}

pub fn point_at(numbers: &[u32; NUMBERS], i: usize) -> Point
    ensures { result ≡ point_at numbers.now i }
{
    if NUMBERS <= i {
        return zeros::zero_point();
    }
    let at = table::POINT + 2 * i;
    Point {
        feet: number(numbers, at),
        tenths: number(numbers, at + 1),
    }
}

// The numbers of a row that is a list: those after its count.
pub fn list_at(numbers: &[u32; NUMBERS], row: usize) -> [u32; MOST_PHASES]
    ensures { result ≡ list_numbers numbers.now (place_of row) }
{
    let at = places::place(row) + 1;
    array::from_fn(|i| number(numbers, at.saturating_add(i)))
}
