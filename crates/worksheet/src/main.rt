// A site sheet on standard input; its worksheet, or its refusal, on standard output.
#![tactic(auto)]

use lines::Lines;
use numbering::Numbered;
use std::io;

fn print_lines(rt: &impl Print, lines: Lines) -> io::Result<()> {
    for (number, value) in (1..=61).zip(listing::in_order(lines)) {
        println!(rt; "L{number:02}={value}")?;
    }
    Ok(())
}

fn report(rt: &impl Print, text: &[u8]) -> io::Result<()> {
    let reading = reader::read(text);
    match reading.answer {
        Ok(()) => {
            println!(rt; "issue={}", reading.sheet.issue)?;
            print_lines(rt, form::worksheet(reading.sheet).lines)
        }
        refused => println!(rt; "refused={}", Numbered(refused)),
    }
}

// The buffer is one byte longer than the longest text there can be (`longest::buffer`): a text that is cut by it gets the reply of the whole text
// (`CutIsSame` of crate trips). A read that fails ends the text where it failed: what came before it is read as the text, and an input that is closed as
// an empty one.
fn main(rt: HostRuntime) -> io::Result<()> {
    let mut buffer = [0u8; longest::BUFFER];
    let n = intake::read_full(&mut rt.reader(), &mut buffer);
    report(&rt, &buffer[..n])
}
