// The worksheet filled in: the answer to a sheet, and its 61 lines.
#![tactic(auto)]

ghost use Rattle.std.specs.Prelude.{◌≡◌};
ghost use Rattle.lines.specs.Worksheet.{zero_lines, worksheet_of, timed_of};

use lines::{Lines, Timed, Worked};
use sheet::Sheet;
use units::Tenths;

mod sections;
mod sums;

use sections::Accepted;

fn zero_lines() -> Lines
    ensures { result ≡ zero_lines }
{
    Lines::default()
}

// The worksheet of a sheet: its answer and its lines. The reply is a pair, and no Result with the lines, since a refused one has zeros beside its number, as theorem `RefusedGivesZeros` says.
pub fn worksheet(s: Sheet) -> Worked
    ensures { result ≡ worksheet_of s }
{
    match Accepted::of(s) {
        Ok(accepted) => Worked {
            answer: Ok(()),
            lines: accepted.lines_of(),
        },
        Err(refused) => Worked {
            answer: Err(refused),
            lines: zero_lines(),
        },
    }
}

// The answer and lines 3 and 51 alone: what is worked out for each tick of a unit that is handed over. A pair for the same reason.
pub fn timed(s: Sheet) -> Timed
    ensures { result ≡ timed_of s }
{
    match Accepted::of(s) {
        Ok(accepted) => accepted.timed_of(),
        Err(refused) => Timed {
            answer: Err(refused),
            l03: Tenths(0),
            l51: Tenths(0),
        },
    }
}
