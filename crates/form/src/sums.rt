// What the lines are put together with. Units are made from a sheet's numbers and taken apart in the worksheet's own rules alone: here, in the rules of single lines, of transfer, factor and curve, and in `in_order`, which hands the lines out as plain numbers.
ghost use Rattle.std.specs.Prelude.{◌≡◌};
ghost use Rattle.units.specs.Numbers.{feet, tenths, hundredths};
ghost use Rattle.lines.specs.Sums.{Small, ◌plus◌, ◌along◌, ◌less◌};
ghost use Rattle.lines.specs.Lines.{acceleration};

use sheet::Sheet;
use units::{Feet, Hundredths, Tenths};

// One maker for each unit and one sum for each that is added: they differ in the unit alone, and a trait over the units would need as many `impl`s as there are functions here.
pub(crate) fn time(x: u32) -> Tenths
    ensures { result ≡ tenths x }
{
    Tenths(u64::from(x))
}

pub(crate) fn distance(x: u32) -> Feet
    ensures { result ≡ feet x }
{
    Feet(u64::from(x))
}

pub(crate) fn multiplier(x: u32) -> Hundredths
    ensures { result ≡ hundredths x }
{
    Hundredths(u64::from(x))
}

pub(crate) fn plus(a: Tenths, b: Tenths) -> Tenths
    requires { Small a.0 × Small b.0 }
    ensures { result ≡ a plus b }
{
    Tenths(a.0 + b.0)
}

pub(crate) fn along(a: Feet, b: Feet) -> Feet
    requires { Small a.0 × Small b.0 }
    ensures { result ≡ a along b }
{
    Feet(a.0 + b.0)
}

pub(crate) fn less(a: Tenths, b: Tenths) -> Tenths
    ensures { result ≡ a less b }
{
    Tenths(a.0.saturating_sub(b.0))
}

// A time as a number of 32 bits.
pub(crate) fn number(t: Tenths) -> u32
    requires { Small t.0 }
    ensures { tenths result ≡ t }
{
    t.0 as u32
}

// The time to accelerate over a distance on a grade, by the sheet's points and vehicle.
pub(crate) fn acceleration(s: Sheet, grade: i16, d: Feet) -> Tenths
    ensures { result ≡ acceleration s grade d }
{
    acceleration::acceleration(s.listed_points(), s.vehicle, grade, d)
}
