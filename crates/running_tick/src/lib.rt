// A running unit's ticks, by the lengths that it keeps.
#![tactic(auto)]

ghost use Rattle.std.specs.Prelude.{◌≡◌};
ghost use Rattle.running.specs.Running.{answered, tick_of, pass_of};

use answers::refuse_unless;
use flow::Ticked;
use running::{Answered, Running};
use sheet::{Refusal, Refused};
use stage::Command;

fn answered(running: Running, ticked: Ticked) -> Answered
    ensures { result ≡ answered running ticked }
{
    Answered {
        running: Running {
            now: ticked.now,
            ..running
        },
        answer: refuse_unless(ticked.allowed, Refusal::CommandNotAllowed, 0),
    }
}

// One tenth of a second, with the command and the call of it.
#[tactic(auto, unfolding(running::specs::Running::tick_by))]
pub fn tick(running: Running, command: Command, call: bool) -> Answered
    ensures { result ≡ tick_of running command call }
{
    match running.lengths {
        Ok(t) => answered(
            running,
            steady::tick(t, running.sheet, running.now, command, call),
        ),
        Err(_) => Answered {
            running, // unchanged
            answer: Err(Refused {
                refusal: Refusal::UnitUnfit,
                line: 0,
            }),
        },
    }
}

// That many ticks with the call and no command.
#[tactic(auto, unfolding(running::specs::Running::pass_by))]
pub fn pass(running: Running, call: bool, count: u32) -> Running
    ensures { result ≡ pass_of running call count }
{
    match running.lengths {
        Ok(t) => Running {
            now: passing::pass(t, running.sheet, call, count, running.now),
            ..running
        },
        Err(_) => running, // unchanged
    }
}
