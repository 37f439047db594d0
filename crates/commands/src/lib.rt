// What a command makes of the stage, and whether it is allowed now.
#![tactic(auto)]

ghost use Rattle.std.specs.Prelude.{◌≡◌};
ghost use Rattle.stage.specs.Commands.{may_start, allowed_in, allowed_at, allowed, home, next, ended, obeyed};

use phase::{Light, Walker};
use sheet::Sheet;
use stage::{Command, Place, Stage, Then};

// A phase may start: a listed one in normal operation, a named one in dwell.
#[tactic(auto, unfolding(stage::specs::Commands::may_start))]
fn may_start(sheet: &Sheet, place: Place, number: u32) -> bool
    ensures { result ≡ may_start sheet.now place number }
{
    match place {
        Place::Normal => lookup::listed(*sheet, number),
        Place::Train => lookup::named(*sheet, number),
    }
}

#[tactic(auto, unfolding(units::specs::Numbers::pick, stage::specs::Commands::allowed_in))]
fn allowed_in(sheet: &Sheet, place: Place, phase: u32, next: u32) -> bool
    ensures { result ≡ allowed_in sheet.now place phase next }
{
    next != phase && (next == 0 || may_start(sheet, place, next))
}

#[tactic(auto, unfolding(stage::specs::Commands::allowed_at))]
fn allowed_at(sheet: &Sheet, stage: Stage, next: u32) -> bool
    ensures { result ≡ allowed_at sheet.now stage next }
{
    match stage {
        Stage::TrackGreen => may_start(sheet, Place::Normal, next),
        Stage::Open { place, phase, .. } => allowed_in(sheet, place, phase, next),
        Stage::AllRed => may_start(sheet, Place::Train, next),
        Stage::Ending { .. } => false, // the end may be asked once
        Stage::TrackYellow { .. } | Stage::TrackRed { .. } | Stage::ClearanceGreen { .. } => false,
    }
}

#[tactic(auto, unfolding(stage::specs::Commands::home))]
fn home(place: Place) -> Then
    ensures { result ≡ home place }
{
    match place {
        Place::Normal => Then::ToTrack,
        Place::Train => Then::ToAllRed,
    }
}

#[tactic(auto, unfolding(units::specs::Numbers::pick, stage::specs::Commands::next))]
fn next(place: Place, n: u32) -> Then
    ensures { result ≡ next place n }
{
    if n == 0 {
        home(place)
    } else {
        Then::ToPhase(n)
    }
}

#[tactic(auto, unfolding(stage::specs::Commands::ended))]
fn ended(n: u32, stage: Stage) -> Stage
    ensures { result ≡ ended n stage }
{
    match stage {
        Stage::TrackGreen => Stage::TrackYellow {
            place: Place::Normal,
            then: Then::ToPhase(n),
            spent: 0,
        },
        Stage::Open {
            place,
            phase,
            green,
            walk,
        } => Stage::Ending {
            place,
            phase,
            then: next(place, n),
            light: Light::Green(green),
            walker: Walker::Walk(walk),
        },
        Stage::AllRed => Stage::Open {
            place: Place::Train,
            phase: n,
            green: 0,
            walk: 0,
        },
        Stage::TrackYellow { .. }
        | Stage::TrackRed { .. }
        | Stage::Ending { .. }
        | Stage::ClearanceGreen { .. } => stage,
    }
}

// The command is allowed now.
#[tactic(auto, unfolding(stage::specs::Commands::allowed))]
pub fn allowed(command: Command, sheet: Sheet, stage: Stage) -> bool
    ensures { result ≡ allowed sheet stage command }
{
    match command {
        Command::None => true,
        Command::End(n) => allowed_at(&sheet, stage, n),
    }
}

// What it makes of the stage, where it is allowed.
#[tactic(auto, unfolding(stage::specs::Commands::obeyed))]
pub fn obeyed(command: Command, stage: Stage) -> Stage
    ensures { result ≡ obeyed stage command }
{
    match command {
        Command::None => stage,
        Command::End(n) => ended(n, stage),
    }
}
