// The acceleration time from 425 ft on, by the far times, as an exact fraction in tenths.
#![tactic(auto)]

ghost use Rattle.std.specs.Prelude.{◌≡◌, ◌<◌};
ghost use Rattle.far_table.specs.FarTable.{far_entry_of};
ghost use Rattle.far.specs.Far.{after_car, far_column_of, far_of};

use scale::{Fraction, Place};
use scaled::Printed;
use sheet::Vehicle;
use units::Feet;

// Table 628-B's columns stand after the car's.
fn after_car(p: Place) -> Place
    requires { p.step < 13 }
    ensures { result ≡ after_car p }
{
    Place {
        step: p.step + 1,
        ..p
    }
}

// The far times, in tenths: rows every 25 ft from 425 to 1000.
struct FarTimes;

impl Printed for FarTimes {
    ghost entries = { far_entry_of };

    ghost columns = { far_column_of };

    ghost FIRST = { 425 };

    ghost LAST = { 1000 };

    const FIRST: u64 = 425;

    const LAST: u64 = 1000;

    fn entry(col: usize, row: usize) -> u16 {
        far_columns::entry(col, row).0 as u16
    }

    // The car's one column, or the vehicle's; the first serves below 1 percent and below its own grade.
    fn column(vehicle: Vehicle, grade: i16) -> Place {
        if scaled::is_car(vehicle) {
            return Place {
                step: 0,
                past: 0,
                width: 1,
            };
        }
        let g = scaled::uphill(grade);
        if g < 10 {
            return after_car(scaled::column(vehicle, 0));
        }
        after_car(scaled::column(vehicle, g))
    }
}

// The far time over a distance; nothing is taken up here.
pub fn far(vehicle: Vehicle, grade: i16, distance: Feet) -> Fraction
    ensures { result ≡ far_of vehicle grade distance }
{
    scaled::read::<FarTimes>(vehicle, grade, distance)
}
