// The first fault of a sheet's phases, each in its ranges and after the one before it.
#![tactic(auto)]

ghost use Rattle.std.specs.Prelude.{◌≡◌, ◌+◌, ◌<◌};
ghost use Rattle.rows.specs.Table.{first_phase, most_phases};
ghost use Rattle.numbers.specs.Flat.{flat_of};
ghost use Rattle.faults.specs.Lines.{fault_from};
ghost use Rattle.faults.proofs.Values.{phase_inside, phase_line};

use rows::FIRST_PHASE;
use sheet::{Answer, Phase, Refusal, Sheet};

// Each number of a phase is in its range.
fn phase_in(p: Phase) -> bool
    ensures { result ≡ phase_inside p }
{
    let numbers = [
        p.number,
        p.green,
        p.other,
        p.yellow,
        p.red,
        p.walk,
        p.clearance,
        p.mode,
    ];
    ranges::row_fits(FIRST_PHASE, &numbers)
}

// Phase i, p, after the phase `before`.
#[tactic(auto, unfolding(sheet::specs::Refusals::or_else))]
fn phase_line(i: usize, before: Phase, p: Phase) -> Answer
    requires { i < most_phases }
    ensures { result ≡ phase_line before p (first_phase + i + 1) }
{
    let line = (FIRST_PHASE + i + 1) as u32;
    answers::refuse_unless(phase_in(p), Refusal::OutOfRange, line)?;
    entry_rules::phase_fault(before, p, line)
}

// The first fault of the phases' rows. They start on the line after the rows before them, each of which is a line.
pub fn phases_fault(s: Sheet) -> Answer
    ensures { result ≡ fault_from (flat_of s) most_phases first_phase (first_phase + 1) }
{
    let phases = s.listed_phases();
    let mut before = zeros::zero_phase();
    for i in 0..phases.len() {
        let p = phases[i];
        phase_line(i, before, p)?;
        before = p;
    }
    Ok(())
}
