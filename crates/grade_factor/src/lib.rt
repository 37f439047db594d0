// The factor for slower acceleration uphill, by Table 628-B, as an exact fraction.
#![tactic(auto)]

ghost use Rattle.std.specs.Prelude.{◌≡◌, min};
ghost use Rattle.table.specs.Table.{entry_of};
ghost use Rattle.scale.specs.Scale.{climb, column_of};
ghost use Rattle.factor.specs.Factor.{factor_of, one};

use scale::{Fraction, Place};
use scaled::Printed;
use sheet::Vehicle;
use units::Feet;

// Table 628-B, in hundredths: rows every 25 ft from 25 to 400; below 25 ft row 25.
struct Factors;

impl Printed for Factors {
    ghost entries = { entry_of };

    ghost columns = { λ v g. column_of v (min (climb g) 80) };

    ghost FIRST = { 25 };

    ghost LAST = { 400 };

    const FIRST: u64 = 25;

    const LAST: u64 = 400;

    fn entry(col: usize, row: usize) -> u16 {
        columns::entry(col, row).0 as u16
    }

    fn column(vehicle: Vehicle, grade: i16) -> Place {
        scaled::column(vehicle, scaled::uphill(grade))
    }
}

// The factor 1.
fn one_to_one() -> Fraction
    ensures { result ≡ one }
{
    Fraction { over: 1, under: 1 }
}

pub fn factor(vehicle: Vehicle, grade: i16, distance: Feet) -> Fraction
    ensures { result ≡ factor_of vehicle grade distance }
{
    if scaled::is_car(vehicle) || scaled::uphill(grade) < 10 {
        return one_to_one();
    }
    let Fraction { over, under } = scaled::read::<Factors>(vehicle, grade, distance);
    Fraction {
        over,
        under: 100 * under,
    }
}
