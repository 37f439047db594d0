// A running unit is made from any unit that is handed over, by one check of it.
#![tactic(auto)]

ghost use Rattle.std.specs.Prelude.{◌≡◌};
ghost use Rattle.running.specs.Running.{running_of};

use flow::Now;
use running::Running;
use unit::Unit;

#[tactic(auto, unfolding(units::specs::Numbers::pick))]
pub fn take_over(unit: Unit) -> Running
    ensures { result ≡ running_of unit }
{
    let Unit {
        sheet,
        stage,
        count,
    } = unit;
    let m = measured::measure(sheet);
    let now = Now { stage, count };
    Running {
        sheet,
        lengths: fitting::fits(m, sheet, now)
            .then_some(m.lengths)
            .ok_or(m.lengths),
        now,
    }
}
