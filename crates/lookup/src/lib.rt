// The phases of a sheet by their numbers, and those that it names for dwell.
#![tactic(auto)]

ghost use Rattle.std.specs.Prelude.{◌≡◌};
ghost use Rattle.sheet.specs.Entries.{is_in, named};
ghost use Rattle.stage.specs.Listed.{find_in, listed, phase_of};

use sheet::{Phase, Sheet, counted};

// The phase of that number, the first where there are more. Its callers copy the phases out first: with `sheet.listed_phases()` the whole sheet is copied,
// and a tick in a phase was a fourth slower.
fn find(phases: &[Phase], number: u32) -> Option<Phase>
    ensures { result ≡ find_in phases.now number }
{
    phases.iter().find(|p| p.number == number).copied()
}

// Whether a phase has that number.
pub fn listed(sheet: Sheet, number: u32) -> bool
    ensures { result ≡ listed sheet number }
{
    let phases = sheet.phases;
    find(counted(&phases, sheet.phase_count), number).is_some()
}

// The listed phase of that number; a stage that fits has no other.
pub fn phase_of(sheet: Sheet, number: u32) -> Phase
    ensures { result ≡ phase_of sheet number }
{
    let phases = sheet.phases;
    find(counted(&phases, sheet.phase_count), number).unwrap_or(zeros::zero_phase())
}

fn is_in(numbers: &[u32], number: u32) -> bool
    ensures { result ≡ is_in numbers.now number }
{
    numbers.contains(&number)
}

// Whether the sheet names that phase for dwell.
pub fn named(sheet: Sheet, number: u32) -> bool
    ensures { result ≡ named sheet number }
{
    let dwell = sheet.dwell;
    is_in(counted(&dwell, sheet.dwell_count), number)
}
