// The sequence unit: a sheet, the stage shown and the count of the call. Here a start; `sequence` has the tick and the loader.
#![tactic(auto)]

ghost use Rattle.std.specs.Prelude.{◌≡◌};
ghost use Rattle.unit.specs.Unit.{fresh, restarted, start_of};

use sheet::{Answer, Sheet};
use stage::Stage;

mod sequence;

// The stage and the count stand here by themselves, and not in a `Now` of `flow`: what is promised of a unit names `u.stage` and `u.count`.
#[derive(Clone, Copy)]
pub struct Unit {
    pub sheet: Sheet,
    pub stage: Stage,
    pub count: u64,
}

// What a start, a tick and a load reply: the unit from then on, and the answer. Not a `Result`: a refusal has its unit too, by `RefusedStart`, `AsWithNone`
// and `Unchanged`.
#[derive(Clone, Copy)]
pub struct Reply {
    pub unit: Unit,
    pub answer: Answer,
}

fn fresh(sheet: Sheet) -> Unit
    ensures { result ≡ fresh sheet }
{
    Unit {
        sheet,
        stage: Stage::TrackGreen,
        count: 0,
    }
}

// A sheet that is taken restarts the unit; one that is refused leaves the unit that there is.
#[tactic(auto, unfolding(units::specs::Numbers::pick, crate::specs::Unit::restarted))]
fn restarted(answer: Answer, sheet: Sheet, kept: Unit) -> Reply
    ensures { result ≡ restarted answer sheet kept }
{
    Reply {
        unit: match answer {
            Ok(()) => fresh(sheet),
            Err(_) => kept,
        },
        answer,
    }
}

// A fresh start.
pub fn start(sheet: Sheet) -> Reply
    ensures { result ≡ start_of sheet }
{
    let answer = measured::measure(sheet).answer;
    restarted(answer, sheet, fresh(zeros::zero_sheet()))
}
