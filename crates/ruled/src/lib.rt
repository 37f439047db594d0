// The rules of single lines, and what a tick is. What a rule takes from the sheet, and what it multiplies, comes in as a number of 32 bits: no product
// of two runs over.
#![tactic(auto)]

ghost use Rattle.std.specs.Prelude.{◌≡◌};
ghost use Rattle.units.specs.Numbers.{tenths, hundredths};
ghost use Rattle.rules.specs.Rules.{ticks, waited, line22, line38, line51, line59};

use sheet::Phase;
use units::{Feet, Tenths};

// "A tick is one tenth."
pub fn ticks(t: Tenths) -> u64
    ensures { result ≡ ticks t }
{
    t.0
}

// A yellow or a red, as a pedestrian time counts it.
pub fn waited(p: Phase, time: u32) -> Tenths
    ensures { result ≡ waited p time }
{
    if p.mode == 1 {
        Tenths(u64::from(time))
    } else {
        Tenths(0)
    }
}

pub fn line22(l21: Feet) -> Tenths
    ensures { result ≡ line22 l21 }
{
    Tenths(20 + units::div_up(l21.0, 2))
}

pub fn line38(l36: u32, l37: u32) -> Tenths
    ensures { result ≡ line38 (tenths l36) (hundredths l37) }
{
    Tenths(units::div_up(u64::from(l36) * u64::from(l37), 100))
}

pub fn line51(l44: u32, l50: u32, l25: u32) -> Tenths
    ensures { result ≡ line51 (tenths l44) (tenths l50) (tenths l25) }
{
    let largest = l44.max(l50).max(l25);
    Tenths(10 * units::div_up(u64::from(largest), 10))
}

pub fn line59(l57: u32, l58: u32) -> Tenths
    ensures { result ≡ line59 (tenths l57) (hundredths l58) }
{
    Tenths(u64::from(l57) * u64::from(l58) / 100)
}
