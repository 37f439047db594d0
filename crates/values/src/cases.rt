// A case is the paper's sheet with numbers changed:
//   0       what is printed: 0 the writer's answer; 1 the worksheet's and the writer's; 2 the text itself. A number, as it stands in the input
//   1       how many of 300 bytes the writer is lent
//   then    PLACE=VALUE, a place among the numbers of the sheet (a grade's is 1000000 more than it) and what stands there; at most 19
use super::shown;
use sheet::Sheet;
use std::io;

// The paper's sheet has 276 bytes.
fn paper() -> Sheet {
    reader::read(&shown::TEXT[..276]).sheet
}

// A number's digits, whatever bytes they are; those that no number has room for are left out. `handed_over` reads its own alike, but leaves out digits sooner:
// each limit is that of the stored cases, and a number in common would be a function of a library for six lines of two runs.
fn number(bytes: &[u8]) -> u32 {
    bytes.iter().fold(0, |n: u32, byte| {
        if n < 429496730 {
            (n * 10).wrapping_add(u32::from(*byte).wrapping_sub(48))
        } else {
            n
        }
    })
}

// Whatever is above a digit ends a number.
pub(crate) fn case(rt: &impl Print, name: &[u8], line: &[u8]) -> io::Result<()> {
    let mut given = line.split(|byte| b'9' < *byte).map(number);
    let printed = given.next().unwrap_or(0);
    let room = given.next().unwrap_or(0);
    let mut numbers = to_numbers::flat(paper());
    for _ in 0..19 {
        if let Some(place) = given.next()
            && let Some(value) = given.next()
            && let Some(number) = numbers.get_mut(place as usize)
        {
            *number = value;
        }
    }
    let sheet = from_numbers::sheet_of(&numbers);
    match printed {
        0 => shown::written(rt, name, sheet, room),
        1 => {
            shown::worked(rt, name, sheet)?;
            shown::written(rt, name, sheet, room)
        }
        _ => shown::text(rt, sheet),
    }
}
