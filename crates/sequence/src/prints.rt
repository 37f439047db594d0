// What the bench prints: refusals, and what the unit shows.
use numbering::Numbered;
use running::Running;
use sheet::{Answer, Refusal, Refused};
use std::io;

// A text's lines are fewer than a `u32` has room for.
pub(crate) fn malformed(rt: &impl Print, line: usize) -> io::Result<()> {
    let refusal = Refusal::Malformed;
    let line = u32::try_from(line).unwrap_or(u32::MAX);
    refusal_of(rt, Err(Refused { refusal, line }))
}

pub(crate) fn refusal_of(rt: &impl Print, answer: Answer) -> io::Result<()> {
    println!(rt; "refused={}", Numbered(answer))
}

// TICK,STAGE,PHASE,WALKER,NUMBER,LINE
pub(crate) fn state(rt: &impl Print, tick: u64, unit: Running, answer: Answer) -> io::Result<()> {
    let shown = shown::of(unit.sheet, unit.now.stage);
    print!(rt; "{tick},{},{},{},", shown.stage, shown.phase, shown.walker)?;
    println!(rt; "{}", Numbered(answer))
}
