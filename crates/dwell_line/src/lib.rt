// The fault of a sheet's line for dwell: its count and numbers in their ranges, and the numbers rising.
#![tactic(auto)]

ghost use Rattle.std.specs.Prelude.{◌≡◌};
ghost use Rattle.std.specs.List.{list_all};
ghost use Rattle.rows.specs.Table.{row_for, range_of, in_range};
ghost use Rattle.faults.specs.Dwell.{dwell_line};

use answers::refuse_unless;
use ranges::fits;
use rows::table::DWELL_ROW;
use sheet::{Answer, Refusal, Sheet};

// Each of the numbers is in its range, which is the same for all.
fn numbers_fit(numbers: &[u32]) -> bool
    ensures { result ≡ list_all (in_range (range_of (row_for "dwell") 1)) numbers.now }
{
    numbers.iter().all(|number| fits(DWELL_ROW, 1, *number))
}

// On that line of the text, 2 before 3.
#[tactic(auto, using(faults::proofs::Values::dwell_line_lem), unfolding(sheet::specs::Refusals::or_else))]
pub fn dwell_fault(s: &Sheet, line: u32) -> Answer
    ensures { result ≡ dwell_line s.now.dwell_count s.now.dwell line }
{
    let numbers = s.dwell_numbers();
    refuse_unless(fits(DWELL_ROW, 0, s.dwell_count), Refusal::OutOfRange, line)?;
    refuse_unless(numbers_fit(numbers), Refusal::OutOfRange, line)?;
    refuse_unless(entry_rules::rises(numbers), Refusal::PhasesDontRise, line)
}
