// A case has 17 numbers, which stay numbers, as they are read from the input and stand for any state that C can hand over:
//   0, 1     a place among the numbers of the site's sheet, and what stands there in the sheet held; so too 14, 15 in the sheet offered
//   2 to 10  the stage as `state` numbers it; 9 for its kind: no unit, but a start with the sheet offered
//   11       the count of the call
//   12, 13   the command, 0 for none and n + 1 for end, next n; the call
//   16       the issue of the sheet offered
use super::shown;
use rows::NUMBERS;
use sheet::Sheet;
use stage::Command;
use state::State;
use std::io;
use unit::{Reply, Unit};

const PLACE: usize = 0;

const VALUE: usize = 1;

const STAGE: usize = 2;

const COUNT: usize = 11;

const COMMAND: usize = 12;

const CALL: usize = 13;

const OFFERED_PLACE: usize = 14;

const OFFERED_VALUE: usize = 15;

const ISSUE: usize = 16;

const START: u32 = 9;

fn changed(site: &[u32; NUMBERS], place: u32, value: u32) -> [u32; NUMBERS] {
    let mut numbers = *site;
    if let Some(number) = numbers.get_mut(place as usize) {
        *number = value;
    }
    numbers
}

fn state(n: &[u32; NUMBERS]) -> State {
    State {
        kind: n[2],
        place: n[3],
        follows: n[4],
        next: n[5],
        phase: n[6],
        light: n[7],
        spent: u64::from(n[8]),
        walker: n[9],
        walked: u64::from(n[10]),
    }
}

fn command(n: u32) -> Command {
    if n == 0 {
        Command::None
    } else {
        Command::End(n - 1)
    }
}

fn held(site: &[u32; NUMBERS], n: &[u32; NUMBERS]) -> Unit {
    Unit {
        sheet: from_numbers::sheet_of(&changed(site, n[PLACE], n[VALUE])),
        stage: from_state::stage_of(state(n)),
        count: u64::from(n[COUNT]),
    }
}

// The issue is the first of the numbers.
fn offered(site: &[u32; NUMBERS], n: &[u32; NUMBERS]) -> Sheet {
    let other = changed(site, n[OFFERED_PLACE], n[OFFERED_VALUE]);
    from_numbers::sheet_of(&changed(&other, 0, n[ISSUE]))
}

fn ticked(n: &[u32; NUMBERS], unit: Unit) -> Reply {
    unit.tick(command(n[COMMAND]), n[CALL] == 1)
}

pub(crate) fn case(rt: &impl Print, site: &[u32; NUMBERS], n: &[u32; NUMBERS]) -> io::Result<()> {
    let offered = offered(site, n);
    if n[STAGE] == START {
        shown::reply(rt, site, "start", unit::start(offered))?;
    } else {
        let unit = held(site, n);
        shown::unit(rt, site, unit)?;
        shown::reply(rt, site, "| tick", ticked(n, unit))?;
        shown::reply(rt, site, "| load", unit.load(offered))?;
    }
    println!(rt)
}
