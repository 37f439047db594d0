// The units of the worksheet, and the few operations on numbers that every rule uses.
#![tactic(auto)]

ghost use Rattle.std.specs.Prelude.{◌≡◌};
ghost use Rattle.units.specs.Numbers.{up};

// A sheet's numbers are u32, as the text has them. What is worked out from them is u64, so that no sum or product of a rule runs over.
#[derive(Clone, Copy, Default)]
pub struct Feet(pub u64);

#[derive(Clone, Copy, Default)]
pub struct Tenths(pub u64);

#[derive(Clone, Copy, Default)]
pub struct Hundredths(pub u64);

// n over d, taken up; over 0 it is 0.
pub fn div_up(n: u64, d: u64) -> u64
    ensures { result ≡ up n d }
{
    if d == 0 {
        return 0;
    }
    let q = n / d;
    if q * d == n { q } else { q + 1 }
}
