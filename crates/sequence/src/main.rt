// The bench: a site sheet on standard input, a line `run`, then one event a line; on standard output what the unit shows.
#![tactic(auto)]

use marks::Marked;
use orders::Order;
use running::{Answered, Running};
use sheet::Answer;
use std::io;

mod marks;
mod prints;

// A running unit, the ticks it has run, the events that are left and how many lines stand before them.
#[derive(Clone, Copy)]
struct Run<'a> {
    unit: Running,
    tick: u64,
    left: &'a [u8],
    line: usize,
}

// A tick is printed where what is shown changed or the command was refused.
fn print_tick(
    rt: &impl Print,
    tick: u64,
    before: Running,
    after: Running,
    answer: Answer,
) -> io::Result<()> {
    let was = shown::of(before.sheet, before.now.stage);
    let is = shown::of(after.sheet, after.now.stage);
    if shown::unchanged(was, is) && answer.is_ok() {
        return Ok(());
    }
    prints::state(rt, tick, after, answer)
}

// As many ticks as the order has, each with its command and its call.
fn ticks(rt: &impl Print, first: Running, from: u64, order: Order) -> io::Result<Running> {
    let mut unit = first;
    for i in 0..order.count {
        let Answered { running, answer } = running_tick::tick(unit, order.command, order.call);
        let tick = from.wrapping_add(u64::from(i)).wrapping_add(1);
        print_tick(rt, tick, unit, running, answer)?;
        unit = running;
    }
    Ok(unit)
}

// A text offered to the loader: a refusal of the reading is the reply. Its sheet is then all zeros, which the loader refuses too.
fn load(rt: &impl Print, unit: Running, tick: u64, text: &[u8]) -> io::Result<Running> {
    let reading = reader::read(text);
    let Answered { running, answer } = running_start::load(unit, reading.sheet);
    prints::state(rt, tick, running, reading.answer.and(answer))?;
    Ok(running)
}

// An event, and what is left after it: nothing after a malformed one. A load's text ends with a line `done`, and without one is malformed.
fn event<'a>(rt: &impl Print, run: Run<'a>) -> io::Result<Run<'a>> {
    let line = run.line.wrapping_add(1);
    if let Some(text) = run.left.strip_prefix(b"load\n")
        && let Some(done) = marks::find_line(text, b"done\n")
    {
        return Ok(Run {
            unit: load(rt, run.unit, run.tick, done.before)?,
            tick: run.tick,
            left: done.after,
            line: line.wrapping_add(done.lines),
        });
    }
    if let Ok(order) = orders::read(run.left, 0)
        && let Some(left) = run.left.get(order.next..)
    {
        return Ok(Run {
            unit: ticks(rt, run.unit, run.tick, order)?,
            tick: run.tick.wrapping_add(u64::from(order.count)),
            left,
            line,
        });
    }
    prints::malformed(rt, line)?;
    Ok(Run { left: b"", ..run })
}

// No more events than bytes.
fn events(rt: &impl Print, first: Run) -> io::Result<()> {
    let mut run = first;
    for _ in first.left {
        if run.left.is_empty() {
            break;
        }
        run = event(rt, run)?;
    }
    Ok(())
}

// The sheet's text up to a line `run`, then the events; without that line it is a sheet alone.
fn bench(rt: &impl Print, s: &[u8]) -> io::Result<()> {
    let parts = marks::find_line(s, b"run\n").unwrap_or(Marked {
        before: s,
        after: b"",
        lines: 0,
    });
    let reading = reader::read(parts.before);
    if reading.answer.is_err() {
        return prints::refusal_of(rt, reading.answer);
    }
    let Answered { running, answer } = running_start::start(reading.sheet);
    prints::state(rt, 0, running, answer)?;
    let first = Run {
        unit: running,
        tick: 0,
        left: parts.after,
        line: parts.lines,
    };
    events(rt, first)
}

// A text has at most 65536 bytes: where that many came, one more is asked for.
fn main(rt: HostRuntime) -> io::Result<()> {
    // A buffer with its count, since memory is fixed: what was read is a slice from here on.
    let mut buffer = [0u8; 65536];
    let mut beyond = [0u8; 1];
    let mut reader = rt.reader();
    let n = intake::read_full(&mut reader, &mut buffer);
    if n == 65536 && intake::read_full(&mut reader, &mut beyond) == 1 {
        return prints::malformed(&rt, 0);
    }
    bench(&rt, &buffer[..n])
}
