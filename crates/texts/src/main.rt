// Texts, good and damaged, one after the other on standard input, each after a line `#NAME`; on standard output the answer to each, and the
// lines of those that are accepted.
#![tactic(auto)]

use intake::Texts;
use numbering::Numbered;
use sheet::Sheet;
use std::io;

// The 61 lines, in order, on one line.
fn print_lines(rt: &impl Print, sheet: Sheet) -> io::Result<()> {
    for value in listing::in_order(form::worksheet(sheet).lines) {
        print!(rt; " {value}")?;
    }
    Ok(())
}

fn print_answer(rt: &impl Print, text: &[u8]) -> io::Result<()> {
    let reading = reader::read(text);
    print!(rt; "{}", Numbered(reading.answer))?;
    if reading.answer.is_ok() {
        print_lines(rt, reading.sheet)?;
    }
    println!(rt)
}

// `converts` has the same walk. One for both would take what is done with a text as a closure, longer than these lines.
fn all(rt: &impl Print, s: &[u8]) -> io::Result<()> {
    for (name, text) in Texts(s) {
        rt.write_all(name)?;
        print!(rt; ": ")?;
        print_answer(rt, text)?;
    }
    Ok(())
}

fn main(rt: HostRuntime) -> io::Result<()> {
    // A buffer with its count, since memory is fixed: what was read is a slice from here on.
    let mut buffer = [0u8; 65536];
    let n = intake::read_full(&mut rt.reader(), &mut buffer);
    all(&rt, &buffer[..n])
}
