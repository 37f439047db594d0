// The stage of plain numbers.
#![tactic(auto)]

ghost use Rattle.std.specs.Prelude.{◌≡◌};
ghost use Rattle.state.specs.State.{place_of, then_of, light_of, walker_of, stage_of};

use phase::{Light, Walker};
use stage::{Place, Stage, Then};
use state::State;

#[tactic(auto, unfolding(units::specs::Numbers::pick, state::specs::State::place_of))]
fn place_of(n: u32) -> Place
    ensures { result ≡ place_of n }
{
    match n {
        0 => Place::Normal,
        _ => Place::Train,
    }
}

#[tactic(auto, unfolding(units::specs::Numbers::pick, state::specs::State::then_of))]
fn then_of(n: u32, next: u32) -> Then
    ensures { result ≡ then_of n next }
{
    match n {
        0 => Then::ToTrack,
        1 => Then::ToPhase(next),
        2 => Then::ToClearance,
        3 => Then::ToDwell,
        _ => Then::ToAllRed,
    }
}

#[tactic(auto, unfolding(units::specs::Numbers::pick, state::specs::State::light_of))]
fn light_of(n: u32, spent: u64) -> Light
    ensures { result ≡ light_of n spent }
{
    match n {
        0 => Light::Green(spent),
        1 => Light::Yellow(spent),
        _ => Light::Red(spent),
    }
}

#[tactic(auto, unfolding(units::specs::Numbers::pick, state::specs::State::walker_of))]
fn walker_of(n: u32, spent: u64) -> Walker
    ensures { result ≡ walker_of n spent }
{
    match n {
        0 => Walker::Walk(spent),
        _ => Walker::Clearance(spent),
    }
}

// The stage of these numbers; a number beyond the last that is named is taken for the last, so that no numbers are refused and a
// `TryFrom` has nothing to say.
#[tactic(auto, unfolding(units::specs::Numbers::pick, state::specs::State::stage_of))]
pub fn stage_of(n: State) -> Stage
    ensures { result ≡ stage_of n }
{
    match n.kind {
        0 => Stage::TrackGreen,
        1 => Stage::TrackYellow {
            place: place_of(n.place),
            then: then_of(n.follows, n.next),
            spent: n.spent,
        },
        2 => Stage::TrackRed {
            place: place_of(n.place),
            then: then_of(n.follows, n.next),
            spent: n.spent,
        },
        3 => Stage::Open {
            place: place_of(n.place),
            phase: n.phase,
            green: n.spent,
            walk: n.walked,
        },
        4 => Stage::Ending {
            place: place_of(n.place),
            phase: n.phase,
            then: then_of(n.follows, n.next),
            light: light_of(n.light, n.spent),
            walker: walker_of(n.walker, n.walked),
        },
        5 => Stage::ClearanceGreen { spent: n.spent },
        _ => Stage::AllRed,
    }
}
