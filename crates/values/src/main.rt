// Sheets handed over as values, good and with each fault: what the worksheet and the writer answer, and what became of the lent bytes. Each line of
// standard input is a case, `NAME:` and the numbers of `cases`.
#![tactic(auto)]

use intake::FromLines;
use std::io;

mod cases;
mod shown;

// The case whose name begins the bytes; none where its numbers or the end of their line are missing.
fn case(rt: &impl Print, s: &[u8]) -> io::Result<()> {
    if let Some((name, rest)) = intake::split_once(s, b':')
        && let Some((numbers, _)) = intake::split_once(rest, b'\n')
    {
        cases::case(rt, name, numbers)?;
    }
    Ok(())
}

fn all(rt: &impl Print, s: &[u8]) -> io::Result<()> {
    for rest in FromLines(s) {
        case(rt, rest)?;
    }
    Ok(())
}

fn main(rt: HostRuntime) -> io::Result<()> {
    // A buffer with its count, since memory is fixed: what was read is a slice from here on.
    let mut buffer = [0u8; 65536];
    let n = intake::read_full(&mut rt.reader(), &mut buffer);
    all(&rt, &buffer[..n])
}
