// Many ticks one after the other, with the call on or off all the time and no command.
#![tactic(auto)]

ghost use Rattle.std.specs.Prelude.{◌≡◌};
ghost use Rattle.flow.specs.Tick.{passing};

use flow::Now;
use sheet::Sheet;
use stage::{Command, Lengths};

pub fn pass(t: Lengths, sheet: Sheet, call: bool, count: u32, start: Now) -> Now
    ensures { result ≡ passing t sheet call count start }
{
    let mut now = start;
    for _i in 0..count {
        now = steady::tick(t, sheet, now, Command::None, call).now;
    }
    now
}
