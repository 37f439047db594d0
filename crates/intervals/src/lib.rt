// How long an interval runs: a time one tick later, the call's count one tick later, and a phase's green.
#![tactic(auto)]

ghost use Rattle.std.specs.Prelude.{◌≡◌};
ghost use Rattle.units.specs.Numbers.{pick};
ghost use Rattle.phase.specs.Times.{one_more, green_time};

use sheet::Phase;

// A time one tick later: it stops at its interval's length.
#[tactic(auto, unfolding(units::specs::Numbers::pick, phase::specs::Times::one_more))]
pub fn one_more(spent: u64, length: u64) -> u64
    ensures { result ≡ one_more spent length }
{
    if spent < length { spent + 1 } else { spent }
}

// The call's count one tick later: one more where the call is on, up to the most; off sets it back.
#[tactic(auto, unfolding(units::specs::Numbers::pick))]
pub fn count_on(call: bool, count: u64, most: u64) -> u64
    ensures { result ≡ pick call (one_more count most) 0 }
{
    if call { one_more(count, most) } else { 0 }
}

// How long green is served: green and the other green time.
pub fn green_time(p: Phase) -> u64
    ensures { result ≡ green_time p }
{
    u64::from(p.green) + u64::from(p.other)
}
