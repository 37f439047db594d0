// One tick, with a short way for the ticks on which nothing changes but the times and the count: nearly all of them. Any other takes the three steps.
#![tactic(auto)]

ghost use Rattle.std.specs.Prelude.{◌≡◌, ◌+◌, ltb};
ghost use Rattle.flow.specs.Tick.{ticked};
ghost use Rattle.steady.specs.Steady.{waits, steady_in, count_later};

use flow::{Now, Ticked};
use sheet::Sheet;
use stage::{Command, Lengths, Place, Stage};

// A time one tick later is still below its length.
fn below(spent: u64, length: u64) -> bool
    ensures { result ≡ ltb (spent + 1) length }
{
    spent < length && spent + 1 < length
}

// The count reaches line 3 neither on this tick nor before it.
#[tactic(auto, unfolding(units::specs::Numbers::pick, crate::specs::Steady::waits))]
fn waits(t: Lengths, call: bool, count: u64) -> bool
    ensures { result ≡ waits t call count }
{
    if call {
        below(count, t.l03)
    } else {
        count < t.l03
    }
}

// Nothing is due in the stage. A phase that is not asked to end stays.
#[tactic(auto, unfolding(crate::specs::Steady::steady_in, crate::specs::Steady::steady_open))]
fn stays(t: Lengths, call: bool, count: u64, stage: Stage) -> bool
    ensures { result ≡ steady_in t call count stage }
{
    match stage {
        Stage::TrackGreen
        | Stage::Open {
            place: Place::Normal,
            ..
        } => waits(t, call, count),
        Stage::Open {
            place: Place::Train,
            ..
        } => call,
        Stage::ClearanceGreen { spent } => below(spent, t.l51),
        Stage::AllRed => call,
        Stage::TrackYellow { .. } | Stage::TrackRed { .. } | Stage::Ending { .. } => false,
    }
}

// The call is counted where it waits for the transfer: of the stages that stay, in track green and in a phase of normal operation.
#[tactic(auto, unfolding(crate::specs::Steady::count_later, crate::specs::Steady::count_open, flow::specs::Calls::count_to))]
fn count_later(t: Lengths, call: bool, count: u64, stage: Stage) -> u64
    ensures { result ≡ count_later t call count stage }
{
    match stage {
        Stage::TrackGreen
        | Stage::Open {
            place: Place::Normal,
            ..
        } => intervals::count_on(call, count, t.l03),
        Stage::Open {
            place: Place::Train,
            ..
        } => count,
        Stage::TrackYellow { .. }
        | Stage::TrackRed { .. }
        | Stage::Ending { .. }
        | Stage::ClearanceGreen { .. }
        | Stage::AllRed => count,
    }
}

// One tick later, on a sheet with these lengths. The sheet is handed on once, either way: each step that takes it by value would hold it once more.
#[tactic(auto, using(crate::proofs::Still::goes_on))]
pub fn tick(t: Lengths, sheet: Sheet, now: Now, command: Command, call: bool) -> Ticked
    ensures { result ≡ ticked t sheet now command call }
{
    let stage = now.stage;
    match command {
        Command::None if stays(t, call, now.count, stage) => Ticked {
            now: Now {
                stage: times::add_one(t, sheet, stage),
                count: count_later(t, call, now.count, stage),
            },
            allowed: true,
        },
        _ => tick::tick(t, sheet, now, command, call),
    }
}
