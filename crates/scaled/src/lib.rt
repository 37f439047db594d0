// Where a distance and a grade stand between the marks of a printed table, and what is straight between its entries.
#![tactic(auto)]

ghost use Rattle.std.specs.Prelude.{◌≡◌, ◌+◌, ◌-◌, ◌^◌, ◌<◌, ℕ, ℤ, min};
ghost use Rattle.scale.specs.declared.Place.{Place};
ghost use Rattle.sheet.specs.declared.Vehicle.{Vehicle};
ghost use Rattle.scale.specs.Scale.{climb, column_of, every_of, is_car, mix_of, placed, read_of};

use scale::{Fraction, Place};
use sheet::Vehicle;
use units::Feet;

pub fn is_car(vehicle: Vehicle) -> bool
    ensures { result ≡ is_car vehicle }
{
    matches!(vehicle, Vehicle::Car)
}

// The uphill grade; level and downhill are 0.
pub fn uphill(grade: i16) -> u64
    ensures { result ≡ climb grade }
{
    u64::try_from(grade).unwrap_or(0)
}

fn placed(step: usize, past: u16, width: u16) -> Place
    ensures { result ≡ placed step past width }
{
    Place { step, past, width }
}

// A scale with a mark every so much, from mark `first` at 0.
fn every<const WIDTH: u16>(first: usize, x: u64) -> Place
    requires { (0 < WIDTH) × (first + x < 2 ^ 64) }
    ensures { result ≡ every_of first WIDTH x }
{
    let width = u64::from(WIDTH);
    let step = x.saturating_sub(1) / width;
    placed(first + step as usize, (x - width * step) as u16, WIDTH)
}

// A scale with a mark every 25, from mark 0 at 0: the rows of both tables.
pub fn every_25(x: u64) -> Place
    ensures { result ≡ every_of 0 25 x }
{
    every::<25>(0, x)
}

// The vehicle's columns; what is steeper than 8 percent counts as 8.
pub fn column(vehicle: Vehicle, grade: u64) -> Place
    ensures { result ≡ column_of vehicle (min grade 80) }
{
    let g = grade.min(80);
    match vehicle {
        Vehicle::Car => placed(0, 0, 1),
        Vehicle::Su => every::<20>(0, g.saturating_sub(20)),
        Vehicle::Bus => {
            if g <= 20 {
                placed(4, g.saturating_sub(10) as u16, 10)
            } else {
                every::<20>(5, g - 20)
            }
        }
        Vehicle::Wb50 => every::<20>(9, g),
    }
}

// Straight between two values, times the width of the step.
fn mix(lo: u64, hi: u64, p: Place) -> u64
    requires { (lo < 4294967296) × (hi < 4294967296) }
    ensures { result ≡ mix_of lo hi p }
{
    u64::from(p.width.saturating_sub(p.past)) * lo + u64::from(p.past) * hi
}

// Straight between two columns of a table and between two rows at once, times the widths of both steps; `a` and `b` stand in the one row, `c` and `d` in the next.
pub fn spread(a: u16, b: u16, c: u16, d: u16, column: Place, row: Place) -> u64
    ensures { result ≡ mix_of (mix_of a b column) (mix_of c d column) row }
{
    let here = mix(u64::from(a), u64::from(b), column);
    let next = mix(u64::from(c), u64::from(d), column);
    mix(here, next, row)
}

// A printed table, with its rows every 25 ft from the first distance to the last.
pub trait Printed {
    ghost entries: { ℕ → ℕ → ℕ };

    ghost columns: { Vehicle → ℤ → Place };

    ghost FIRST: { ℕ };

    ghost LAST: { ℕ };

    const FIRST: u64;

    const LAST: u64;

    fn entry(col: usize, row: usize) -> u16
        ensures { result ≡ entries row col };

    // Where the vehicle's grade stands between the columns.
    fn column(vehicle: Vehicle, grade: i16) -> Place
        ensures value { result ≡ columns vehicle grade }
        ensures inside { result.step < 14 };
}

// The table's value for a vehicle on a grade at a distance, as an exact fraction of its own unit.
pub fn read<T: Printed>(vehicle: Vehicle, grade: i16, distance: Feet) -> Fraction
    ensures { result ≡ read_of T.entries (T.columns vehicle grade) (every_of 0 25 (min distance.0 T.LAST - T.FIRST)) }
{
    let column = T::column(vehicle, grade);
    let row = every_25(distance.0.min(T::LAST).saturating_sub(T::FIRST));
    let over = spread(
        T::entry(column.step, row.step),
        T::entry(column.step + 1, row.step),
        T::entry(column.step, row.step + 1),
        T::entry(column.step + 1, row.step + 1),
        column,
        row,
    );
    Fraction {
        over,
        under: u64::from(column.width) * u64::from(row.width),
    }
}
