// What is wrong with a sheet on the whole: refusals 7 to 10 and 12.
#![tactic(auto)]

ghost use Rattle.std.specs.Prelude.{◌≡◌, leb};
ghost use Rattle.faults.specs.Whole.{least_warning, line48, last_point, farthest, listed_in, all_listed, whole_fault};

use answers::refuse_unless;
use right_of_way::track_fits;
use sheet::{Answer, Phase, Refusal, Sheet};

fn warned(l19: u32, l31: u32) -> bool
    ensures { result ≡ leb (least_warning l19) l31 }
{
    let tens = l19.saturating_sub(35).div_ceil(10);
    10 * u64::from(tens) <= u64::from(l31)
}

// Where the last point is; a count past the array's end has none there.
fn last_feet(s: &Sheet) -> u32
    ensures { result ≡ last_point s.now }
{
    let last = s.point_count.saturating_sub(1);
    s.points.get(last as usize).map_or(0, |point| point.feet)
}

// How far there are times: to the last point where it is below 400 ft, else to 1000.
#[tactic(auto, unfolding(faults::specs::Whole::farthest, units::specs::Numbers::pick))]
fn farthest(last: u32) -> u32
    ensures { result ≡ farthest last }
{
    if last < 400 { last } else { 1000 }
}

fn reached(s: &Sheet) -> bool
    ensures { result ≡ leb (line48 s.now) (farthest (last_point s.now)) }
{
    let line48 = u64::from(s.l19) + u64::from(s.l20) + u64::from(s.l47);
    line48 <= u64::from(farthest(last_feet(s)))
}

// One of the phases has that number.
#[tactic(auto, using(faults::proofs::Lists::listed_any))]
fn listed(phases: &[Phase], number: u32) -> bool
    ensures { result ≡ listed_in phases.now number }
{
    phases.iter().any(|phase| phase.number == number)
}

// Each of the numbers for dwell is that of a phase.
#[tactic(auto, using(faults::proofs::Lists::listed_all))]
fn all_listed(phases: &[Phase], dwell: &[u32]) -> bool
    ensures { result ≡ all_listed phases.now dwell.now }
{
    dwell.iter().all(|number| listed(phases, *number))
}

// The first of refusals 7 to 10 and 12.
#[tactic(auto, unfolding(faults::specs::Whole::whole_fault, sheet::specs::Refusals::or_else))]
pub fn whole_fault(s: Sheet) -> Answer
    ensures { result ≡ whole_fault s }
{
    let phases = s.listed_phases();
    let fits = track_fits(phases, s.track_yellow, s.track_red);
    let named = all_listed(phases, s.dwell_numbers());
    refuse_unless(s.l47 <= s.l18, Refusal::RelocationBeyondStorage, 0)?;
    refuse_unless(warned(s.l19, s.l31), Refusal::WarningTooShort, 0)?;
    refuse_unless(reached(&s), Refusal::RelocationTooFar, 0)?;
    refuse_unless(fits, Refusal::TrackLongerThanTransfer, 0)?;
    refuse_unless(named, Refusal::DwellPhaseNotListed, 0)
}
