// The rules that a phase, a point and a list keep besides their ranges: refusals 3 to 6. They are asked of a text's numbers and of a sheet's values alike.
#![tactic(auto)]

ghost use Rattle.std.specs.Prelude.{◌≡◌};
ghost use Rattle.faults.specs.Lines.{quiet_in_mode_zero, clears_yellow_and_red, phase_fault, starts_at_zero, point_rises, point_follows, rises_after};

use answers::refuse_unless;
use sheet::{Answer, Phase, Point, Refusal};

#[tactic(auto, unfolding(faults::specs::Lines::quiet_in_mode_zero, units::specs::Numbers::pick))]
fn quiet_in_mode_zero(p: Phase) -> bool
    ensures { result ≡ quiet_in_mode_zero p }
{
    p.mode != 0 || (p.walk == 0 && p.clearance == 0)
}

#[tactic(auto, unfolding(faults::specs::Lines::clears_yellow_and_red, units::specs::Numbers::pick))]
fn clears_yellow_and_red(p: Phase) -> bool
    ensures { result ≡ clears_yellow_and_red p }
{
    p.mode != 2 || u64::from(p.yellow) + u64::from(p.red) <= u64::from(p.clearance)
}

// The phase p after the phase `before`.
#[tactic(auto, unfolding(faults::specs::Lines::phase_fault, sheet::specs::Refusals::or_else))]
pub fn phase_fault(before: Phase, p: Phase, line: u32) -> Answer
    ensures { result ≡ phase_fault before p line }
{
    refuse_unless(before.number < p.number, Refusal::PhasesDontRise, line)?;
    refuse_unless(quiet_in_mode_zero(p), Refusal::PedestriansInModeZero, line)?;
    refuse_unless(clears_yellow_and_red(p), Refusal::ClearanceTooShort, line)
}

#[tactic(auto, unfolding(faults::specs::Lines::starts_at_zero, units::specs::Numbers::pick))]
fn starts_at_zero(p: Point) -> bool
    ensures { result ≡ starts_at_zero p }
{
    p.feet == 0 && p.tenths == 0
}

#[tactic(auto, unfolding(faults::specs::Lines::point_rises, units::specs::Numbers::pick))]
fn point_rises(before: Point, p: Point) -> bool
    ensures { result ≡ point_rises before p }
{
    before.feet < p.feet && before.tenths <= p.tenths
}

// The point p after the one before it; the first has none.
#[tactic(auto, unfolding(faults::specs::Lines::point_follows))]
pub fn point_fits(before: Option<Point>, p: Point) -> bool
    ensures { result ≡ point_follows before p }
{
    match before {
        None => starts_at_zero(p),
        Some(before) => point_rises(before, p),
    }
}

// The numbers rise, from above 0.
#[tactic(auto, using(faults::proofs::Lists::rise_next, faults::proofs::Lists::rise_stop, faults::proofs::Lists::rise_end))]
pub fn rises(numbers: &[u32]) -> bool
    ensures { result ≡ rises_after 0 numbers.now }
{
    let mut before = 0;
    for number in numbers {
        if *number <= before {
            return false;
        }
        before = *number;
    }
    true
}
