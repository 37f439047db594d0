// Which stages are normal operation, and where a sheet is loaded.
#![tactic(auto)]

ghost use Rattle.std.specs.Prelude.{◌≡◌};
ghost use Rattle.stage.specs.Shown.{stays_normal, is_normal, normal_before, in_normal, resting};

use stage::{Place, Stage, Then};

#[tactic(auto, unfolding(stage::specs::Shown::stays_normal))]
fn stays_normal(then: Then) -> bool
    ensures { result ≡ stays_normal then }
{
    matches!(then, Then::ToTrack | Then::ToPhase(_))
}

#[tactic(auto, unfolding(stage::specs::Shown::is_normal))]
fn is_normal(place: Place) -> bool
    ensures { result ≡ is_normal place }
{
    matches!(place, Place::Normal)
}

#[tactic(auto, unfolding(units::specs::Numbers::pick, stage::specs::Shown::normal_before))]
fn normal_before(place: Place, then: Then) -> bool
    ensures { result ≡ normal_before place then }
{
    is_normal(place) && stays_normal(then)
}

// Normal operation, until the transfer begins.
#[tactic(auto, unfolding(stage::specs::Shown::in_normal))]
pub fn in_normal(stage: Stage) -> bool
    ensures { result ≡ in_normal stage }
{
    match stage {
        Stage::TrackGreen => true,
        Stage::TrackYellow { place, then, .. }
        | Stage::TrackRed { place, then, .. }
        | Stage::Ending { place, then, .. } => normal_before(place, then),
        Stage::Open { place, .. } => is_normal(place),
        Stage::ClearanceGreen { .. } | Stage::AllRed => false,
    }
}

// Track green in normal operation with no call counted: where alone a sheet is loaded.
#[tactic(auto, unfolding(stage::specs::Shown::resting))]
pub fn resting(stage: Stage, count: u64) -> bool
    ensures { result ≡ resting stage count }
{
    matches!(stage, Stage::TrackGreen) && count == 0
}
