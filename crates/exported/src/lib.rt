// What a program in C or Rust can link (`rt lib` in this folder): texts to lines, and texts written again.
#![tactic(auto)]

ghost use Rattle.std.specs.Prelude.{◌≡◌, length};
ghost use Rattle.sheet.specs.Refusals.{code_of};
ghost use Rattle.text.specs.Read.{read_of};
ghost use Rattle.exported.specs.Exported.{lines_of, reply_of, length_of, bytes_after};

use text::Written;

// Works out the lines of a text. A refusal leaves the array as it is.
#[unsafe(no_mangle)]
#[tactic(auto, unfolding(units::specs::Numbers::pick, crate::specs::Exported::lines_of))]
pub extern "C" fn lettofrisk_worksheet(text: &[u8], lines: &mut [u64; 61]) -> u64
    ensures { (result ≡ code_of (read_of text.now).answer) × (lines.new ≡ lines_of (read_of text.now) lines.old) }
{
    let reading = reader::read(text);
    if reading.answer.is_ok() {
        *lines = listing::in_order(form::worksheet(reading.sheet).lines);
    }
    numbering::code(reading.answer)
}

// The length of a text that was written, else the answer.
#[tactic(auto, unfolding(units::specs::Numbers::pick, crate::specs::Exported::reply_of))]
fn reply(written: Written) -> u64
    ensures { result ≡ reply_of written }
{
    match written.answer {
        Ok(()) => written.length as u64,
        Err(told) => numbering::code(Err(told)),
    }
}

// Reads a text and writes its sheet again: its length, else the answer.
#[unsafe(no_mangle)]
#[tactic(auto, unfolding(units::specs::Numbers::pick, crate::specs::Exported::length_of, crate::specs::Exported::bytes_after))]
pub extern "C" fn lettofrisk_write(text: &[u8], out: &mut [u8]) -> u64
    ensures { (result ≡ length_of (read_of text.now) (length out.old)) × (out.new ≡ bytes_after (read_of text.now) out.old) }
{
    let reading = reader::read(text);
    match reading.answer {
        Ok(()) => reply(writer::write(reading.sheet, out)),
        Err(refused) => numbering::code(Err(refused)),
    }
}
