// Whether a stage fits the sheet, for refusal 20.
#![tactic(auto)]

ghost use Rattle.std.specs.Prelude.{◌≡◌};
ghost use Rattle.phase.specs.Times.{light_fits, walker_fits};
ghost use Rattle.stage.specs.Fitness.{then_fits, phase_fits, stage_fits};

use phase::{Light, Walker};
use sheet::{Phase, Sheet};
use stage::{Lengths, Stage, Then};

// No time is above its length.
#[tactic(auto, unfolding(phase::specs::Times::light_fits))]
fn light_fits(p: Phase, light: Light) -> bool
    ensures { result ≡ light_fits p light }
{
    match light {
        Light::Green(k) => k <= intervals::green_time(p),
        Light::Yellow(k) => k <= u64::from(p.yellow),
        Light::Red(k) => k <= u64::from(p.red),
    }
}

#[tactic(auto, unfolding(phase::specs::Times::walker_fits))]
fn walker_fits(p: Phase, walker: Walker) -> bool
    ensures { result ≡ walker_fits p walker }
{
    match walker {
        Walker::Walk(k) => k <= u64::from(p.walk),
        Walker::Clearance(k) => k <= u64::from(p.clearance),
    }
}

#[tactic(auto, unfolding(stage::specs::Fitness::then_fits))]
fn then_fits(sheet: &Sheet, then: Then) -> bool
    ensures { result ≡ then_fits sheet.now then }
{
    match then {
        Then::ToPhase(n) => lookup::listed(*sheet, n),
        Then::ToTrack | Then::ToClearance | Then::ToAllRed | Then::ToDwell => true,
    }
}

#[tactic(auto, unfolding(units::specs::Numbers::pick, stage::specs::Fitness::phase_fits))]
fn phase_fits(sheet: &Sheet, phase: u32, light: Light, walker: Walker) -> bool
    ensures { result ≡ phase_fits sheet.now phase light walker }
{
    let p = lookup::phase_of(*sheet, phase);
    lookup::listed(*sheet, phase) && light_fits(p, light) && walker_fits(p, walker)
}

// No phase that is not listed, no next that is neither listed nor the track, no time above its length.
#[tactic(auto, unfolding(units::specs::Numbers::pick, stage::specs::Fitness::stage_fits))]
pub fn stage_fits(t: Lengths, sheet: Sheet, stage: Stage) -> bool
    ensures { result ≡ stage_fits t sheet stage }
{
    match stage {
        Stage::TrackGreen | Stage::AllRed => true,
        Stage::TrackYellow { then, spent, .. } => then_fits(&sheet, then)
            && spent <= t.track_yellow,
        Stage::TrackRed { then, spent, .. } => then_fits(&sheet, then) && spent <= t.track_red,
        Stage::Open {
            phase,
            green,
            walk,
            ..
        } => phase_fits(&sheet, phase, Light::Green(green), Walker::Walk(walk)),
        Stage::Ending {
            phase,
            then,
            light,
            walker,
            ..
        } => then_fits(&sheet, then) && phase_fits(&sheet, phase, light, walker),
        Stage::ClearanceGreen { spent } => spent <= t.l51,
    }
}
