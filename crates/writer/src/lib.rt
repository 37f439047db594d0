// Writes a site sheet as its text.
#![tactic(auto)]

ghost use Rattle.std.specs.Prelude.{◌≡◌, [], ◌∷◌, true, ◌+◌, ◌≤◌, ◌<◌, min, leb, length, take};
ghost use Rattle.rows.specs.Table.{is_list, row_count, number_count};
ghost use Rattle.rows.specs.Marks.{mark_of, word_of};
ghost use Rattle.text.specs.Digits.{digits};
ghost use Rattle.text.specs.Text.{signed_text, field_text, fields_text, list_text, values_text, row_text, text_from};
ghost use Rattle.text.specs.Write.{Put, told, written_of, bytes_of};

use longest::LONGEST;
use rows::table::{MOST_PHASES, MOST_POINTS};
use rows::{Form, NUMBERS, ROWS, table};
use sheet::{Refusal, Refused, Sheet};
use text::Written;

// How long the line of a phase, that of a point, and all the others together can be.
const PHASE_LINE: usize = 62;

const POINT_LINE: usize = 20;

const OTHER_LINES: usize = LONGEST - PHASE_LINE * MOST_PHASES - POINT_LINE * MOST_POINTS;

// One byte at a place, where the output reaches it. What is past the output's end is only counted.
fn put(out: &mut [u8], at: usize, x: u8) -> usize
    requires { at ≤ 10000 }
    ensures { Put out.old out.new at result (x ∷ []) }
{
    if at < out.len() {
        out[at] = x;
    }
    at + 1
}

fn put_word(out: &mut [u8], at: usize, w: &[u8]) -> usize
    requires { at + length w.now ≤ 10000 }
    ensures { Put out.old out.new at result w.now }
{
    let mut p = at;
    for b in w {
        p = put(out, p, *b);
    }
    p
}

// The digits of a number.
fn put_number(out: &mut [u8], at: usize, v: u32) -> usize
    requires { (at ≤ 9990) × (v < 1000000) }
    ensures { Put out.old out.new at result (digits v) }
{
    if v < 10 {
        put(out, at, b'0' + (v % 10) as u8)
    } else {
        let p = put_number(out, at, v / 10);
        put(out, p, b'0' + (v % 10) as u8)
    }
}

// A vehicle's word; none of what is no vehicle. A sheet's numbers stand in one array, and a vehicle is a number there (`word_of` of the table).
fn put_vehicle(out: &mut [u8], at: usize, x: u32) -> usize
    requires { at ≤ 9990 }
    ensures { Put out.old out.new at result (word_of x) }
{
    match x {
        0 => put_word(out, at, b"car"),
        1 => put_word(out, at, b"su"),
        2 => put_word(out, at, b"bus"),
        3 => put_word(out, at, b"wb50"),
        _ => at,
    }
}

// A number that is kept as 1,000,000 more than it is.
fn put_signed(out: &mut [u8], at: usize, x: u32) -> usize
    requires { at ≤ 9980 }
    ensures { Put out.old out.new at result (signed_text x) }
{
    if x < 1000000 {
        let p = put(out, at, b'-');
        put_number(out, p, (1000000 - x) % 1000000)
    } else {
        put_number(out, at, (x - 1000000) % 1000000)
    }
}

#[tactic(auto, unfolding(text::specs::Text::field_text, units::specs::Numbers::pick))]
fn put_field(out: &mut [u8], at: usize, form: Form, x: u32) -> usize
    requires { at ≤ 9980 }
    ensures { Put out.old out.new at result (field_text form x) }
{
    match form {
        Form::Worded => put_vehicle(out, at, x),
        Form::Signed => put_signed(out, at, x),
        Form::Plain | Form::Listed => put_number(out, at, x % 1000000),
    }
}

// What stands before number j of a line.
fn put_mark(out: &mut [u8], at: usize, j: usize) -> usize
    requires { at ≤ 10000 }
    ensures { Put out.old out.new at result (mark_of j) }
{
    if j < 1 {
        put(out, at, b'=')
    } else {
        put(out, at, b',')
    }
}

// The first n letters of a key.
fn put_key(out: &mut [u8], at: usize, letters: [u8; 8], n: usize) -> usize
    requires { (at ≤ 9900) × (n ≤ 8) }
    ensures { Put out.old out.new at result (take n letters) }
{
    put_word(out, at, &letters[0..n])
}

// n numbers of a line, which stand from a place on.
fn put_fields(
    out: &mut [u8],
    at: usize,
    form: Form,
    place: usize,
    n: usize,
    numbers: &[u32; NUMBERS],
) -> usize
    requires { (place + n ≤ number_count) × (at ≤ 8900) }
    ensures { Put out.old out.new at result (fields_text form place n 0 numbers.now) }
{
    let mut p = at;
    for j in 0..n {
        let q = put_mark(out, p, j);
        p = put_field(out, q, form, numbers[place + j]);
    }
    p
}

// A list of at most that many numbers, whose count stands before them; 0 for none.
fn put_list(out: &mut [u8], at: usize, place: usize, most: usize, numbers: &[u32; NUMBERS]) -> usize
    requires { (place + 1 + most ≤ number_count) × (at ≤ 8900) }
    ensures { Put out.old out.new at result (list_text place most numbers.now) }
{
    let count = numbers[place] as usize;
    if count == 0 {
        return put_word(out, at, b"=0");
    }
    put_fields(out, at, Form::Plain, place + 1, count.min(most), numbers)
}

// The numbers of a line by its form, which has room for n from a place on.
fn put_values(
    out: &mut [u8],
    at: usize,
    form: Form,
    place: usize,
    n: usize,
    numbers: &[u32; NUMBERS],
) -> usize
    requires { (place + n ≤ number_count) × (is_list form ≡ true → 2 ≤ n) × (at ≤ 8900) }
    ensures { Put out.old out.new at result (values_text form place n numbers.now) }
{
    match form {
        Form::Listed => put_list(out, at, place, n - 1, numbers),
        _ => put_fields(out, at, form, place, n, numbers),
    }
}

// The line of a row.
fn put_line(out: &mut [u8], at: usize, row: usize, numbers: &[u32; NUMBERS]) -> usize
    requires { (row < row_count) × (at ≤ 8000) }
    ensures { Put out.old out.new at result (row_text row numbers.now) }
{
    let facts = rows::facts(row);
    let place = places::place(row);
    let n = places::width(row);
    let p = put_key(out, at, facts.letters, facts.length);
    let q = put_values(out, p, facts.form, place, n, numbers);
    put(out, q, b'\n')
}

// All lines.
fn put_lines(out: &mut [u8], numbers: &[u32; NUMBERS]) -> usize
    ensures { Put out.old out.new 0 result (text_from numbers.now row_count 0) }
{
    let mut p = 0;
    for row in 0..ROWS {
        if places::present(numbers, row) {
            p = put_line(out, p, row, numbers);
        }
    }
    p
}

// The output has room for the text. Where it has room for the longest text with as many phases and points, nothing is counted; else a run over none of
// the output tells the text's length, so that a refusal writes no byte.
fn has_room(out: &mut [u8], numbers: &[u32; NUMBERS]) -> bool
    ensures { (result ≡ leb (length (text_from numbers.now row_count 0)) (length out.old)) × (out.new ≡ out.old) }
{
    let phases = numbers[table::PHASES] as usize;
    let points = numbers[table::POINTS] as usize;
    if OTHER_LINES + PHASE_LINE * phases + POINT_LINE * points <= out.len() {
        return true;
    }
    let needed = put_lines(&mut out[0..0], numbers);
    needed <= out.len()
}

// The text's length, once it is written.
fn written(sheet: Sheet, out: &mut [u8]) -> Result<usize, Refused>
    ensures { (told result ≡ written_of sheet (length out.old)) × (out.new ≡ bytes_of sheet out.old) }
{
    accept::accept(sheet)?;
    let numbers = to_numbers::flat(sheet);
    answers::refuse_unless(has_room(out, &numbers), Refusal::NoRoom, 0)?;
    Ok(put_lines(out, &numbers))
}

// Writes a site sheet. A refusal comes with the length 0.
pub fn write(sheet: Sheet, out: &mut [u8]) -> Written
    ensures { (result ≡ written_of sheet (length out.old)) × (out.new ≡ bytes_of sheet out.old) }
{
    match written(sheet, out) {
        Ok(length) => Written {
            answer: Ok(()),
            length,
        },
        Err(refused) => Written {
            answer: Err(refused),
            length: 0,
        },
    }
}
