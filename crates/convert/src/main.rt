// A site sheet in an older form, or in today's, on standard input; the same sheet in today's form, or its refusal, on standard output.
#![tactic(auto)]

use numbering::Numbered;
use std::io;

// The bytes lent are as many as the longest text there can be and one more, so that 11 is not given.
fn report(rt: &impl Print, text: &[u8]) -> io::Result<()> {
    let mut out = [0u8; longest::BUFFER];
    let written = converter::convert(text, &mut out);
    match written.answer {
        Ok(()) => rt.write_all(&out[..written.length]),
        refused => println!(rt; "refused={}", Numbered(refused)),
    }
}

// The buffer is one byte longer than the longest text there can be: a text that is cut by it gets the reply of the whole text (`OlderCutIsSame` of crate
// trips). A read that fails ends the text where it failed.
fn main(rt: HostRuntime) -> io::Result<()> {
    let mut buffer = [0u8; longest::BUFFER];
    let n = intake::read_full(&mut rt.reader(), &mut buffer);
    report(&rt, &buffer[..n])
}
