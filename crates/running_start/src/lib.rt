// A running unit is begun: by a fresh start, or by a load.
#![tactic(auto)]

ghost use Rattle.std.specs.Prelude.{◌≡◌};
ghost use Rattle.running.specs.Running.{with_reply, start_of, load_of};

use flow::Now;
use running::{Answered, Running};
use sheet::Sheet;
use unit::{Reply, Unit};

fn taken_on(reply: Reply) -> Answered
    ensures { result ≡ with_reply reply }
{
    Answered {
        running: take_over::take_over(reply.unit),
        answer: reply.answer,
    }
}

// A fresh start.
pub fn start(sheet: Sheet) -> Answered
    ensures { result ≡ start_of sheet }
{
    taken_on(unit::start(sheet))
}

// The loader: the unit's own, which checks all of it.
pub fn load(running: Running, sheet: Sheet) -> Answered
    ensures { result ≡ load_of running sheet }
{
    let Now { stage, count } = running.now;
    let unit = Unit {
        sheet: running.sheet,
        stage,
        count,
    };
    taken_on(unit.load(sheet))
}
