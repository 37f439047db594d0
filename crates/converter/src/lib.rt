// Converts a text of an older form of the sheet to today's: it is read with the lines absent that older forms have not got, and its sheet is written.
#![tactic(auto)]

ghost use Rattle.std.specs.Prelude.{◌≡◌, length};
ghost use Rattle.trips.specs.Convert.{converted_of, converted_bytes};

use text::Written;

// Writes a text of an older form, or of today's, in today's. A refusal leaves the bytes lent as they are.
pub fn convert(text: &[u8], out: &mut [u8]) -> Written
    ensures { (result ≡ converted_of text.now (length out.old)) × (out.new ≡ converted_bytes text.now out.old) }
{
    let reading = reader::read_older(text);
    match reading.answer {
        Ok(()) => writer::write(reading.sheet, out),
        Err(refused) => Written {
            answer: Err(refused),
            length: 0,
        },
    }
}
