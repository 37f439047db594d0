// Texts of each form of the sheet, good and damaged, one after the other on standard input, each after a line `#NAME`; on standard output the answer to each,
// and of those that are taken the text in today's form.
#![tactic(auto)]

use intake::Texts;
use numbering::Numbered;
use std::io;

fn print_answer(rt: &impl Print, text: &[u8]) -> io::Result<()> {
    let mut out = [0u8; longest::BUFFER];
    let written = converter::convert(text, &mut out);
    println!(rt; "{}", Numbered(written.answer))?;
    rt.write_all(&out[..written.length])
}

fn all(rt: &impl Print, s: &[u8]) -> io::Result<()> {
    for (name, text) in Texts(s) {
        rt.write_all(name)?;
        print!(rt; ": ")?;
        print_answer(rt, text)?;
    }
    Ok(())
}

fn main(rt: HostRuntime) -> io::Result<()> {
    // A buffer with its count, since memory is fixed: what was read is a slice from here on.
    let mut buffer = [0u8; 65536];
    let n = intake::read_full(&mut rt.reader(), &mut buffer);
    all(&rt, &buffer[..n])
}
