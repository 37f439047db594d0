// One tick of the stage and of the call's count: the changes due, what the call does, and the three steps of a tick.
#![tactic(auto)]

ghost use Rattle.std.specs.Prelude.{◌≡◌};
ghost use Rattle.flow.specs.Settling.{enter, settle_red, settle_yellow, settle_green, settle};
ghost use Rattle.flow.specs.Calls.{counting, count_after, answered, unless_owed, dropped, becomes, begins, called, overdue};
ghost use Rattle.flow.specs.Tick.{after_times, heard, after_command, after_call, ticked};

use flow::{Now, Ticked};
use phase::{Light, Walker};
use sheet::Sheet;
use stage::{Command, Lengths, Place, Stage, Then};

// ---- what follows, and the changes due

#[tactic(auto, unfolding(units::specs::Numbers::pick, flow::specs::Settling::enter))]
fn enter(call: bool, place: Place, then: Then) -> Stage
    ensures { result ≡ enter call place then }
{
    match then {
        Then::ToTrack => Stage::TrackGreen,
        Then::ToPhase(phase) => Stage::Open {
            place,
            phase,
            green: 0,
            walk: 0,
        },
        Then::ToClearance => Stage::ClearanceGreen { spent: 0 },
        Then::ToAllRed => Stage::AllRed,
        Then::ToDwell if call => Stage::AllRed,
        Then::ToDwell => Stage::TrackGreen, // the call is off
    }
}

#[tactic(auto, unfolding(units::specs::Numbers::pick, flow::specs::Settling::settle_red))]
fn settle_red(t: Lengths, call: bool, place: Place, then: Then, spent: u64) -> Stage
    ensures { result ≡ settle_red t call place then spent }
{
    if t.track_red <= spent {
        enter(call, place, then)
    } else {
        Stage::TrackRed { place, then, spent }
    }
}

#[tactic(auto, unfolding(units::specs::Numbers::pick, flow::specs::Settling::settle_yellow))]
fn settle_yellow(t: Lengths, call: bool, place: Place, then: Then, spent: u64) -> Stage
    ensures { result ≡ settle_yellow t call place then spent }
{
    if t.track_yellow <= spent {
        settle_red(t, call, place, then, 0)
    } else {
        Stage::TrackYellow { place, then, spent }
    }
}

#[tactic(auto, unfolding(units::specs::Numbers::pick, flow::specs::Settling::settle_green))]
fn settle_green(t: Lengths, call: bool, spent: u64) -> Stage
    ensures { result ≡ settle_green t call spent }
{
    if t.l51 <= spent {
        settle_yellow(t, call, Place::Train, Then::ToDwell, 0)
    } else {
        Stage::ClearanceGreen { spent }
    }
}

// Every change due is made.
#[tactic(auto, unfolding(flow::specs::Settling::settle, flow::specs::Settling::settled_as))]
fn settle(t: Lengths, sheet: &Sheet, call: bool, stage: Stage) -> Stage
    ensures { result ≡ settle t sheet.now call stage }
{
    match stage {
        Stage::TrackGreen | Stage::Open { .. } | Stage::AllRed => stage,
        Stage::TrackYellow { place, then, spent } => settle_yellow(t, call, place, then, spent),
        Stage::TrackRed { place, then, spent } => settle_red(t, call, place, then, spent),
        Stage::Ending {
            place,
            phase,
            then,
            light,
            walker,
        } => {
            let p = lookup::phase_of(*sheet, phase);
            match ending::settle_phase(p, light, walker) {
                Some((light, walker)) => Stage::Ending {
                    place,
                    phase,
                    then,
                    light,
                    walker,
                },
                None => enter(call, place, then),
            }
        }
        Stage::ClearanceGreen { spent } => settle_green(t, call, spent),
    }
}

// ---- the call

// A tick counts the call where it begins in normal operation, before the transfer.
#[tactic(auto, unfolding(units::specs::Numbers::pick, flow::specs::Calls::counting))]
fn counting(t: Lengths, now: Now) -> bool
    ensures { result ≡ counting t now }
{
    now.count != t.l03 && normal::in_normal(now.stage)
}

#[tactic(auto, unfolding(units::specs::Numbers::pick, flow::specs::Calls::count_after, flow::specs::Calls::count_to))]
fn count_after(t: Lengths, call: bool, counted: bool, end: Stage, count: u64) -> u64
    ensures { result ≡ count_after t call counted end count }
{
    if counted {
        intervals::count_on(call, count, t.l03)
    } else if normal::in_normal(end) {
        0
    } else {
        count
    }
}

// The transfer begins: an unended phase is asked to end, and no new phase starts.
#[tactic(auto, unfolding(flow::specs::Calls::answered))]
fn answered(stage: Stage) -> Stage
    ensures { result ≡ answered stage }
{
    let then = Then::ToClearance;
    match stage {
        Stage::TrackYellow { place, spent, .. } => Stage::TrackYellow { place, then, spent },
        Stage::TrackRed { place, spent, .. } => Stage::TrackRed { place, then, spent },
        Stage::Open {
            place,
            phase,
            green,
            walk,
        } => Stage::Ending {
            place,
            phase,
            then,
            light: Light::Green(green),
            walker: Walker::Walk(walk),
        },
        Stage::Ending {
            place,
            phase,
            light,
            walker,
            ..
        } => Stage::Ending {
            place,
            phase,
            then,
            light,
            walker,
        },
        Stage::TrackGreen | Stage::ClearanceGreen { .. } | Stage::AllRed => Stage::ClearanceGreen {
            spent: 0,
        },
    }
}

// What was next is dropped, but for a clearance green that is owed.
#[tactic(auto, unfolding(flow::specs::Calls::unless_owed))]
fn unless_owed(then: Then) -> Then
    ensures { result ≡ unless_owed then }
{
    match then {
        Then::ToClearance => then,
        Then::ToTrack | Then::ToPhase(_) | Then::ToAllRed | Then::ToDwell => Then::ToTrack,
    }
}

// The call is off: a phase of dwell is asked to end, or goes on ending, and normal track green follows it.
#[tactic(auto, unfolding(flow::specs::Calls::dropped, flow::specs::Calls::open_dropped, flow::specs::Calls::ending_dropped))]
fn dropped(stage: Stage) -> Stage
    ensures { result ≡ dropped stage }
{
    match stage {
        Stage::Open {
            place: Place::Train,
            phase,
            green,
            walk,
        } => Stage::Ending {
            place: Place::Train,
            phase,
            then: Then::ToTrack,
            light: Light::Green(green),
            walker: Walker::Walk(walk),
        },
        Stage::Ending {
            place: Place::Train,
            phase,
            then,
            light,
            walker,
        } => Stage::Ending {
            place: Place::Train,
            phase,
            then: unless_owed(then),
            light,
            walker,
        },
        Stage::AllRed => Stage::TrackGreen,
        _ => stage,
    }
}

#[tactic(auto, unfolding(flow::specs::Calls::becomes))]
fn becomes(t: Lengths, count: u64) -> bool
    ensures { result ≡ becomes t count }
{
    count < t.l03 && count + 1 == t.l03
}

// The transfer begins with this tick, which sees the call on.
#[tactic(auto, unfolding(units::specs::Numbers::pick, flow::specs::Calls::begins))]
fn begins(t: Lengths, counted: bool, count: u64) -> bool
    ensures { result ≡ begins t counted count }
{
    counted && becomes(t, count)
}

#[tactic(auto, unfolding(units::specs::Numbers::pick, flow::specs::Calls::called))]
fn called(t: Lengths, call: bool, counted: bool, count: u64, stage: Stage) -> Stage
    ensures { result ≡ called t call counted count stage }
{
    if !call {
        dropped(stage)
    } else if begins(t, counted, count) {
        answered(stage)
    } else {
        stage
    }
}

#[tactic(auto, unfolding(units::specs::Numbers::pick, flow::specs::Calls::overdue))]
fn overdue(t: Lengths, count: u64, stage: Stage) -> Stage
    ensures { result ≡ overdue t count stage }
{
    if count == t.l03 && normal::in_normal(stage) {
        answered(stage)
    } else {
        stage
    }
}

// ---- the three steps of a tick

fn after_times(t: Lengths, sheet: &Sheet, call: bool, now: Now) -> Stage
    ensures { result ≡ after_times t sheet.now call now }
{
    let later = times::add_one(t, *sheet, now.stage);
    settle(t, sheet, call, overdue(t, now.count, later))
}

#[tactic(auto, unfolding(units::specs::Numbers::pick, flow::specs::Tick::heard))]
fn heard(sheet: &Sheet, stage: Stage, command: Command) -> Command
    ensures { result ≡ heard sheet.now stage command }
{
    if commands::allowed(command, *sheet, stage) {
        command
    } else {
        Command::None // the tick passes as with none
    }
}

fn after_command(t: Lengths, sheet: &Sheet, command: Command, call: bool, stage: Stage) -> Stage
    ensures { result ≡ after_command t sheet.now command call stage }
{
    let heard = heard(sheet, stage, command);
    settle(t, sheet, call, commands::obeyed(heard, stage))
}

fn after_call(t: Lengths, sheet: &Sheet, call: bool, now: Now, stage: Stage) -> Stage
    ensures { result ≡ after_call t sheet.now call now stage }
{
    let counted = counting(t, now);
    let called = called(t, call, counted, now.count, stage);
    settle(t, sheet, call, called)
}

// One tick later, on a sheet with these lengths.
pub fn tick(t: Lengths, sheet: Sheet, now: Now, command: Command, call: bool) -> Ticked
    ensures { result ≡ ticked t sheet now command call }
{
    let first = after_times(t, &sheet, call, now);
    let second = after_command(t, &sheet, command, call, first);
    let stage = after_call(t, &sheet, call, now, second);
    let count = count_after(t, call, counting(t, now), stage, now.count);
    Ticked {
        now: Now { stage, count },
        allowed: commands::allowed(command, sheet, first),
    }
}
