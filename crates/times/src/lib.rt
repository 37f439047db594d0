// One more tick of the times that a phase and a stage run.
#![tactic(auto)]

ghost use Rattle.std.specs.Prelude.{◌≡◌};
ghost use Rattle.phase.specs.Times.{add_light, add_walker};
ghost use Rattle.stage.specs.Times.{add_one};

use phase::{Light, Walker};
use sheet::{Phase, Sheet};
use stage::{Lengths, Stage};

#[tactic(auto, unfolding(phase::specs::Times::add_light))]
fn add_light(p: Phase, light: Light) -> Light
    ensures { result ≡ add_light p light }
{
    match light {
        Light::Green(k) => Light::Green(intervals::one_more(k, intervals::green_time(p))),
        Light::Yellow(k) => Light::Yellow(intervals::one_more(k, u64::from(p.yellow))),
        Light::Red(k) => Light::Red(intervals::one_more(k, u64::from(p.red))),
    }
}

#[tactic(auto, unfolding(phase::specs::Times::add_walker))]
fn add_walker(p: Phase, walker: Walker) -> Walker
    ensures { result ≡ add_walker p walker }
{
    match walker {
        Walker::Walk(k) => Walker::Walk(intervals::one_more(k, u64::from(p.walk))),
        Walker::Clearance(k) => Walker::Clearance(intervals::one_more(k, u64::from(p.clearance))),
    }
}

// One more tick of the times running.
#[tactic(auto, unfolding(stage::specs::Times::add_one))]
pub fn add_one(t: Lengths, sheet: Sheet, stage: Stage) -> Stage
    ensures { result ≡ add_one t sheet stage }
{
    match stage {
        Stage::TrackGreen | Stage::AllRed => stage,
        Stage::TrackYellow { place, then, spent } => {
            let spent = intervals::one_more(spent, t.track_yellow);
            Stage::TrackYellow { place, then, spent }
        }
        Stage::TrackRed { place, then, spent } => {
            let spent = intervals::one_more(spent, t.track_red);
            Stage::TrackRed { place, then, spent }
        }
        Stage::Open {
            place,
            phase,
            green,
            walk,
        } => {
            let p = lookup::phase_of(sheet, phase);
            let green = intervals::one_more(green, intervals::green_time(p));
            let walk = intervals::one_more(walk, u64::from(p.walk));
            Stage::Open {
                place,
                phase,
                green,
                walk,
            }
        }
        Stage::Ending {
            place,
            phase,
            then,
            light,
            walker,
        } => {
            let p = lookup::phase_of(sheet, phase);
            let light = add_light(p, light);
            let walker = add_walker(p, walker);
            Stage::Ending {
                place,
                phase,
                then,
                light,
                walker,
            }
        }
        Stage::ClearanceGreen { spent } => {
            let spent = intervals::one_more(spent, t.l51);
            Stage::ClearanceGreen { spent }
        }
    }
}
