// What is printed of a sheet: a line with the answer of the worksheet, and one with the writer's and what became of the lent bytes.
use numbering::Numbered;
use sheet::{Answer, Sheet};
use std::io;

// The paper's sheet as its text in 300 lent bytes, and the bytes beyond it as they were.
pub(crate) const TEXT: [u8; 300] =
    *b"issue=12\nvehicle=wb50\ngrade=0\ngrade2=0\nl01=0\nl02=2\nphases=2\nphase=2,50,0,40,15,0,0,0\nphase=4,40,0,35,20,70,100,1\ntrack=40,20\ndwell=0\nl18=60\nl19=41\nl20=55\nl28=40\nl30=200\nl31=10\nl33=270\nl37=125\nl39=150\nl47=60\nl56=30\nl57=120\nl58=40\npoints=3\npoint=0,0\npoint=100,140\npoint=400,320\n........................";

// What every lent byte is before.
const BEFORE: u8 = b'.';

fn print_answer(rt: &impl Print, name: &[u8], by: &str, answer: Answer) -> io::Result<()> {
    rt.write_all(name)?;
    print!(rt; ": {by} {}", Numbered(answer))
}

fn print_bytes(rt: &impl Print, out: &[u8; 300]) -> io::Result<()> {
    if *out == [BEFORE; 300] {
        println!(rt; ", no byte changed")
    } else if *out == TEXT {
        println!(rt; ", the text and no byte beyond")
    } else {
        println!(rt; ", other bytes")
    }
}

pub(crate) fn worked(rt: &impl Print, name: &[u8], sheet: Sheet) -> io::Result<()> {
    let worked = form::worksheet(sheet);
    print_answer(rt, name, "worksheet", worked.answer)?;
    if listing::in_order(worked.lines).iter().all(|n| *n == 0) {
        println!(rt; ", zeros")
    } else {
        println!(rt; ", lines")
    }
}

// The writer is lent the first `room` of 300 bytes.
pub(crate) fn written(rt: &impl Print, name: &[u8], sheet: Sheet, room: u32) -> io::Result<()> {
    let mut out = [BEFORE; 300];
    if let Some(lent) = out.get_mut(..room as usize) {
        let reply = writer::write(sheet, lent);
        print_answer(rt, name, "writer", reply.answer)?;
        print!(rt; ", length {}", reply.length)?;
        print_bytes(rt, &out)?;
    }
    Ok(())
}

// The text itself.
pub(crate) fn text(rt: &impl Print, sheet: Sheet) -> io::Result<()> {
    let mut out = [BEFORE; 300];
    let length = writer::write(sheet, &mut out).length;
    if let Some(text) = out.get(..length) {
        rt.write_all(text)?;
    }
    Ok(())
}
