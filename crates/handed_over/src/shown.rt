// A unit as numbers: the stage as `state` numbers it, the count; then each number of its sheet that is not the site's, with its place.
use numbering::Numbered;
use rows::NUMBERS;
use stage::Stage;
use std::io;
use unit::{Reply, Unit};

fn stage(rt: &impl Print, stage: Stage) -> io::Result<()> {
    let n = to_state::numbers_of(stage);
    print!(rt; " {},{},{},{}", n.kind, n.place, n.follows, n.next)?;
    print!(rt;
        ",{},{},{},{},{}",
        n.phase, n.light, n.spent, n.walker, n.walked
    )
}

fn differences(rt: &impl Print, numbers: &[u32; NUMBERS], site: &[u32; NUMBERS]) -> io::Result<()> {
    for (place, (n, was)) in numbers.iter().zip(site).enumerate() {
        if n != was {
            print!(rt; " [{place}]={n}")?;
        }
    }
    Ok(())
}

pub(crate) fn unit(rt: &impl Print, site: &[u32; NUMBERS], unit: Unit) -> io::Result<()> {
    stage(rt, unit.stage)?;
    print!(rt; " count {}", unit.count)?;
    differences(rt, &to_numbers::flat(unit.sheet), site)
}

pub(crate) fn reply(
    rt: &impl Print,
    site: &[u32; NUMBERS],
    event: &str,
    reply: Reply,
) -> io::Result<()> {
    print!(rt; " {event} {}", Numbered(reply.answer))?;
    unit(rt, site, reply.unit)
}
