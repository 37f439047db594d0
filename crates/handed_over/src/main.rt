// Units and sheets handed over as values. The first line of standard input is the site's sheet as its numbers, each further line a case, `NAME:` and
// the numbers of `cases`; on standard output the unit as it was handed over, and the reply and the whole unit after a tick, and after a load.
#![tactic(auto)]

use intake::FromLines;
use rows::NUMBERS;
use std::io;

mod cases;
mod shown;

// A grade among the numbers of a sheet has seven digits, one more than a number of a text; digits past the ninth are left out.
fn number(bytes: &[u8]) -> u32 {
    bytes.iter().fold(0, |n: u32, byte| {
        if n < 100000000 {
            (n * 10).wrapping_add(u32::from(*byte).wrapping_sub(48))
        } else {
            n
        }
    })
}

// The numbers of a line, a comma between two; 0 where there are no more.
fn numbers(line: &[u8]) -> [u32; NUMBERS] {
    let mut numbers = [0; NUMBERS];
    for (n, bytes) in numbers.iter_mut().zip(line.split(|byte| *byte == b',')) {
        *n = number(bytes);
    }
    numbers
}

// The first line, without its end, and what comes after it.
fn line(s: &[u8]) -> (&[u8], &[u8]) {
    intake::split_once(s, b'\n').unwrap_or((s, b""))
}

// The case whose name begins the bytes.
fn case(rt: &impl Print, site: &[u32; NUMBERS], s: &[u8]) -> io::Result<()> {
    if let Some((name, rest)) = intake::split_once(s, b':') {
        rt.write_all(name)?;
        print!(rt; ":")?;
        cases::case(rt, site, &numbers(line(rest).0))?;
    }
    Ok(())
}

fn all(rt: &impl Print, s: &[u8]) -> io::Result<()> {
    let (site, cases) = line(s);
    let site = numbers(site);
    for rest in FromLines(cases) {
        case(rt, &site, rest)?;
    }
    Ok(())
}

fn main(rt: HostRuntime) -> io::Result<()> {
    // A buffer with its count, since memory is fixed: what was read is a slice from here on.
    let mut buffer = [0u8; 65536];
    let n = intake::read_full(&mut rt.reader(), &mut buffer);
    all(&rt, &buffer[..n])
}
