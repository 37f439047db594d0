// The numbers of a stage.
#![tactic(auto)]

ghost use Rattle.std.specs.Prelude.{◌≡◌};
ghost use Rattle.state.specs.State.{place_number, then_number, next_number, light_number, light_time, walker_number, walker_time, track, in_phase, numbers_of};

use phase::{Light, Walker};
use stage::{Place, Stage, Then};
use state::State;

#[tactic(auto, unfolding(state::specs::State::place_number))]
fn place_number(place: Place) -> u32
    ensures { result ≡ place_number place }
{
    match place {
        Place::Normal => 0,
        Place::Train => 1,
    }
}

#[tactic(auto, unfolding(state::specs::State::then_number))]
fn then_number(then: Then) -> u32
    ensures { result ≡ then_number then }
{
    match then {
        Then::ToTrack => 0,
        Then::ToPhase(_) => 1,
        Then::ToClearance => 2,
        Then::ToAllRed => 4,
        Then::ToDwell => 3,
    }
}

#[tactic(auto, unfolding(state::specs::State::next_number))]
fn next_number(then: Then) -> u32
    ensures { result ≡ next_number then }
{
    match then {
        Then::ToPhase(next) => next,
        Then::ToTrack | Then::ToClearance | Then::ToAllRed | Then::ToDwell => 0,
    }
}

#[tactic(auto, unfolding(state::specs::State::light_number))]
fn light_number(light: Light) -> u32
    ensures { result ≡ light_number light }
{
    match light {
        Light::Green(_) => 0,
        Light::Yellow(_) => 1,
        Light::Red(_) => 2,
    }
}

#[tactic(auto, unfolding(state::specs::State::light_time))]
fn light_time(light: Light) -> u64
    ensures { result ≡ light_time light }
{
    match light {
        Light::Green(spent) | Light::Yellow(spent) | Light::Red(spent) => spent,
    }
}

#[tactic(auto, unfolding(state::specs::State::walker_number))]
fn walker_number(walker: Walker) -> u32
    ensures { result ≡ walker_number walker }
{
    match walker {
        Walker::Walk(_) => 0,
        Walker::Clearance(_) => 1,
    }
}

#[tactic(auto, unfolding(state::specs::State::walker_time))]
fn walker_time(walker: Walker) -> u64
    ensures { result ≡ walker_time walker }
{
    match walker {
        Walker::Walk(spent) | Walker::Clearance(spent) => spent,
    }
}

// A stage without a phase.
fn track(kind: u32, place: Place, then: Then, spent: u64) -> State
    ensures { result ≡ track kind place then spent }
{
    State {
        kind,
        place: place_number(place),
        follows: then_number(then),
        next: next_number(then),
        phase: 0,
        light: 0,
        spent,
        walker: 0,
        walked: 0,
    }
}

fn in_phase(kind: u32, place: Place, phase: u32, then: Then, light: Light, walker: Walker) -> State
    ensures { result ≡ in_phase kind place phase then light walker }
{
    State {
        kind,
        place: place_number(place),
        follows: then_number(then),
        next: next_number(then),
        phase,
        light: light_number(light),
        spent: light_time(light),
        walker: walker_number(walker),
        walked: walker_time(walker),
    }
}

// The numbers of a stage. Not a `From`: that would have to stand in `state`, and would only give this function a second name.
#[tactic(auto, unfolding(state::specs::State::numbers_of))]
pub fn numbers_of(stage: Stage) -> State
    ensures { result ≡ numbers_of stage }
{
    match stage {
        Stage::TrackGreen => track(0, Place::Normal, Then::ToTrack, 0),
        Stage::TrackYellow { place, then, spent } => track(1, place, then, spent),
        Stage::TrackRed { place, then, spent } => track(2, place, then, spent),
        Stage::Open {
            place,
            phase,
            green,
            walk,
        } => in_phase(
            3,
            place,
            phase,
            Then::ToTrack,
            Light::Green(green),
            Walker::Walk(walk),
        ),
        Stage::Ending {
            place,
            phase,
            then,
            light,
            walker,
        } => in_phase(4, place, phase, then, light, walker),
        Stage::ClearanceGreen { spent } => track(5, Place::Normal, Then::ToTrack, spent),
        Stage::AllRed => track(6, Place::Normal, Then::ToTrack, 0),
    }
}
