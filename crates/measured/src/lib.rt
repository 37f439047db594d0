// What the worksheet of a sheet says to the sequence: worked out once for all of a start, a tick or a load.
#![tactic(auto)]

ghost use Rattle.std.specs.Prelude.{◌≡◌};
ghost use Rattle.measured.specs.Measured.{measure_of};

use sheet::{Answer, Sheet};
use stage::Lengths;

// The answer to the sheet, and the lengths that its unit goes by. Not a `Result`: the contract of `measure` gives the lengths of a refused sheet too.
#[derive(Clone, Copy)]
pub struct Measured {
    pub answer: Answer,
    pub lengths: Lengths,
}

pub fn measure(sheet: Sheet) -> Measured
    ensures { result ≡ measure_of sheet }
{
    let timed = form::timed(sheet);
    Measured {
        answer: timed.answer,
        lengths: Lengths {
            l03: ruled::ticks(timed.l03),
            l51: ruled::ticks(timed.l51),
            track_yellow: u64::from(sheet.track_yellow),
            track_red: u64::from(sheet.track_red),
        },
    }
}
