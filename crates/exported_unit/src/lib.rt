// What a program in C or Rust can link (`rt lib` in this folder): a unit that the caller keeps as plain numbers: its sheet as the numbers of the text
// in their order (`numbers`), its stage as `state` numbers it, without the times, and the times: those spent in the light and by the walker, and the count.
#![tactic(auto)]

ghost use Rattle.std.specs.Prelude.{◌≡◌};
ghost use Rattle.sheet.specs.Refusals.{Answer, code_of};
ghost use Rattle.flow.specs.declared.Now.{Now};
ghost use Rattle.unit.specs.Unit.{now_of};
ghost use Rattle.unit.specs.Runs.{Event, tick, load, answer_to};
ghost use Rattle.running.specs.Running.{reply_to};
ghost use Rattle.exported_unit.specs.Exported.{state_from, unit_of, stage_numbers, times_of, command_of, event_of, told_by, told_of, event_from, ticks_from};

use flow::Now;
use rows::NUMBERS;
use running::Running;
use sheet::{Answer, Sheet};
use stage::Command;
use state::State;
use unit::Unit;

const STAGE: usize = 7;

const TIMES: usize = 3;

// What is told of a reply: the answer, and what the unit then shows and counts, after a refusal too.
#[derive(Clone, Copy)]
pub struct Told {
    pub answer: Answer,
    pub now: Now,
}

// A unit, or a running one: what it is after an event, what it answers, and what it shows and counts.
trait TakesEvents: Copy {
    ghost after: { Self → Event → Self };

    ghost answer: { Self → Event → Answer };

    ghost shows: { Self → Now };

    fn load(self, sheet: Sheet) -> (Self, Answer)
        ensures { result ≡ (after self (load sheet), answer self (load sheet)) };

    fn tick(self, command: Command, call: bool) -> (Self, Answer)
        ensures { result ≡ (after self (tick command call), answer self (tick command call)) };

    fn now(self) -> Now
        ensures { result ≡ shows self };
}

impl TakesEvents for Unit {
    ghost after = { λ u e. (answer_to u e).unit };

    ghost answer = { λ u e. (answer_to u e).answer };

    ghost shows = { now_of };

    fn load(self, sheet: Sheet) -> (Unit, Answer) {
        let reply = Unit::load(self, sheet);
        (reply.unit, reply.answer)
    }

    fn tick(self, command: Command, call: bool) -> (Unit, Answer) {
        let reply = Unit::tick(self, command, call);
        (reply.unit, reply.answer)
    }

    fn now(self) -> Now {
        Now {
            stage: self.stage,
            count: self.count,
        }
    }
}

impl TakesEvents for Running {
    ghost after = { λ r e. (reply_to r e).running };

    ghost answer = { λ r e. (reply_to r e).answer };

    ghost shows = { λ r. r.now };

    fn load(self, sheet: Sheet) -> (Running, Answer) {
        let reply = running_start::load(self, sheet);
        (reply.running, reply.answer)
    }

    fn tick(self, command: Command, call: bool) -> (Running, Answer) {
        let reply = running_tick::tick(self, command, call);
        (reply.running, reply.answer)
    }

    fn now(self) -> Now {
        self.now
    }
}

fn state_of(stage: &[u32; STAGE], times: &[u64; TIMES]) -> State
    ensures { result ≡ state_from stage.now times.now }
{
    State {
        kind: stage[0],
        place: stage[1],
        follows: stage[2],
        next: stage[3],
        phase: stage[4],
        light: stage[5],
        spent: times[0],
        walker: stage[6],
        walked: times[1],
    }
}

fn unit_of(sheet: &[u32; NUMBERS], stage: &[u32; STAGE], times: &[u64; TIMES]) -> Unit
    ensures { result ≡ unit_of sheet.now stage.now times.now }
{
    Unit {
        sheet: from_numbers::sheet_of(sheet),
        stage: from_state::stage_of(state_of(stage, times)),
        count: times[2],
    }
}

// Stores what the unit shows and counts, and gives the answer as one number.
fn stored(told: Told, stage: &mut [u32; STAGE], times: &mut [u64; TIMES]) -> u64
    ensures { (result ≡ code_of told.answer) × (stage.new ≡ stage_numbers told.now) × (times.new ≡ times_of told.now) }
{
    let n = to_state::numbers_of(told.now.stage);
    *stage = [
        n.kind, n.place, n.follows, n.next, n.phase, n.light, n.walker,
    ];
    *times = [n.spent, n.walked, told.now.count];
    numbering::code(told.answer)
}

// 0 for none, n + 1 for end, next n. A function and no `From`: it is this interface's number of a command, and not the command's own.
#[tactic(auto, unfolding(units::specs::Numbers::pick, crate::specs::Exported::command_of))]
fn command_of(n: u32) -> Command
    ensures { result ≡ command_of n }
{
    match n {
        0 => Command::None,
        _ => Command::End(n - 1),
    }
}

// The event: 0 for the loader, else a tick with the command that the number is one more than.
fn first<T: TakesEvents>(unit: T, event: u32, offered: &[u32; NUMBERS], call: bool) -> (T, Answer)
    ensures { result ≡ (T.after unit (event_of event offered.now call), T.answer unit (event_of event offered.now call)) }
{
    if event == 0 {
        unit.load(from_numbers::sheet_of(offered))
    } else {
        unit.tick(command_of(event - 1), call)
    }
}

// So many ticks more, without a command. The answer stays that of the first.
fn ticks<T: TakesEvents>(first: (T, Answer), call: bool, more: u32) -> Told
    ensures { result ≡ told_of T.after T.shows first call more }
{
    let (mut unit, answer) = first;
    for _i in 0..more {
        unit = unit.tick(Command::None, call).0;
    }
    Told {
        answer,
        now: unit.now(),
    }
}

fn told_by(
    unit: Unit,
    event: u32,
    offered: &[u32; NUMBERS],
    call: bool,
    more: u32,
    kept: bool,
) -> Told
    ensures { result ≡ told_by (event_from unit event offered.now call more) }
{
    // Only which type takes the events: a flag, as the C function has it.
    if kept {
        let running = take_over::take_over(unit);
        ticks(first(running, event, offered, call), call, more)
    } else {
        ticks(first(unit, event, offered, call), call, more)
    }
}

// An event, whose answer is the reply, and `more` ticks without a command, the call on or off in all of them. The event is 0 for a load of the sheet
// offered, 1 for a tick without a command, n + 2 for a tick with end, next n. Where a load is taken, the sheet held is the one offered.
// The reply does not hang on `kept`: where it is true the ticks are a running unit's, which is checked, and the lengths of its sheet worked out, once
// for all of them; else each tick checks the unit whole.
#[unsafe(no_mangle)]
pub extern "C" fn lettofrisk_unit(
    sheet: &[u32; NUMBERS],
    stage: &mut [u32; STAGE],
    times: &mut [u64; TIMES],
    offered: &[u32; NUMBERS],
    event: u32,
    call: bool,
    more: u32,
    kept: bool,
) -> u64
    ensures { (result ≡ code_of (ticks_from sheet.now stage.old times.old offered.now event call more).answer)
        × (stage.new ≡ stage_numbers (now_of (ticks_from sheet.now stage.old times.old offered.now event call more).unit))
        × (times.new ≡ times_of (now_of (ticks_from sheet.now stage.old times.old offered.now event call more).unit)) }
{
    let unit = unit_of(sheet, stage, times);
    stored(
        told_by(unit, event, offered, call, more, kept),
        stage,
        times,
    )
}
