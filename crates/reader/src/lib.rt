// Reads a site sheet from its text.
#![tactic(auto)]

ghost use Rattle.std.specs.Prelude.{◌≡◌, ◌<◌, true, false, set, Err};
ghost use Rattle.sheet.specs.Zero.{zero_sheet};
ghost use Rattle.units.specs.Numbers.{pick};
ghost use Rattle.rows.specs.Table.{row_count, place_of};
ghost use Rattle.text.specs.Read.{begins, passed, stands_for, filled, lines_from, reply, replied, read_by, may_lack, read_of, older_of};

use rows::{Absent, NUMBERS, ROWS};
use sheet::{Answer, Refusal, Refused, Sheet};
use text::Reading;

// Whether a row's key stands at a place of the text, and the sign between key and value.
fn begins(s: &[u8], at: usize, row: usize) -> bool
    ensures { result ≡ begins s.now at row }
{
    let facts = rows::facts(row);
    let Some(next) = words::after(s, at, &facts.letters[..facts.length]) else {
        return false;
    };
    words::after(s, next, b"=").is_some()
}

// Whether a row may be absent: none may, but where older forms of the sheet are taken too, those of which the table says what they stand for.
#[tactic(auto, unfolding(text::specs::Read::may_lack, rows::specs::Facts::facts_of, units::specs::Numbers::pick))]
fn may_lack(older: bool, row: usize) -> bool
    ensures { result ≡ may_lack older row }
{
    older && !matches!(rows::facts(row).absent, Absent::MustStand)
}

// What a row stands for where it is absent.
#[tactic(auto, unfolding(text::specs::Read::stands_for, rows::specs::Facts::facts_of, units::specs::Numbers::pick))]
fn stands_for(v: &[u32; NUMBERS], row: usize) -> u32
    requires { row < row_count }
    ensures { result ≡ stands_for v.now row }
{
    match rows::facts(row).absent {
        Absent::AsBefore => v[places::place(row) - 1],
        Absent::MustStand | Absent::AsNone => 0,
    }
}

// Whether a row that may be absent is. What it stands for is then stored.
fn absent(s: &[u8], at: usize, row: usize, v: &mut [u32; NUMBERS]) -> bool
    requires { row < row_count }
    ensures { (result ≡ pick (begins s.now at row) false true) × (v.new ≡ pick result (set v.old (place_of row) (stands_for v.old row)) v.old) }
{
    if begins(s, at, row) {
        return false;
    }
    v[places::place(row)] = stands_for(v, row);
    true
}

// Whether a row is no line of the text: it is past its count, or it may be absent and is.
fn passed(s: &[u8], older: bool, at: usize, row: usize, v: &mut [u32; NUMBERS]) -> bool
    requires { row < row_count }
    ensures { (result ≡ passed (may_lack older) s.now at row v.old) × (v.new ≡ pick result (filled v.old row) v.old) }
{
    !places::present(v, row) || may_lack(older, row) && absent(s, at, row, v)
}

// All lines of the text. After the last nothing stands.
fn lines(s: &[u8], older: bool, v: &mut [u32; NUMBERS]) -> Answer
    ensures { (result ≡ (lines_from (may_lack older) s.now row_count 0 1 0 v.old).answer) × (v.new ≡ (lines_from (may_lack older) s.now row_count 0 1 0 v.old).numbers) }
{
    let mut at = 0;
    let mut number = 1;
    for row in 0..ROWS {
        if !passed(s, older, at, row, v) {
            match line_reader::judged(s, at, row, number, v) {
                Ok(next) => at = next,
                Err(faulty) => return Err(faulty.refused),
            }
            number += 1;
        }
    }
    answers::refuse_unless(at == s.len(), Refusal::Malformed, number)
}

// Refusals 1 to 6 line by line, then 7 to 10 and 12 on the whole. Not inlined, since its room would be made for a text that is none too.
#[inline(never)]
fn begun(text: &[u8], older: bool) -> Result<Sheet, Refused>
    ensures { replied result ≡ read_by (may_lack older) text.now }
{
    let mut numbers = [0; NUMBERS];
    lines(text, older, &mut numbers)?;
    let sheet = from_numbers::sheet_of(&numbers);
    whole_fault::whole_fault(sheet)?;
    Ok(sheet)
}

// A refusal comes with the zero sheet.
#[tactic(auto, unfolding(text::specs::Read::reply, units::specs::Numbers::pick))]
fn unread(refused: Refused) -> Reading
    ensures { result ≡ reply (Err refused) zero_sheet }
{
    Reading {
        answer: Err(refused),
        sheet: zeros::zero_sheet(),
    }
}

// A text that does not begin with the first key is refused before any room is made for numbers: the first line may not be absent.
fn reading(text: &[u8], older: bool) -> Reading
    ensures { result ≡ read_by (may_lack older) text.now }
{
    if words::after(text, 0, b"issue").is_none() {
        return unread(Refused {
            refusal: Refusal::Malformed,
            line: 1,
        });
    }
    match begun(text, older) {
        Ok(sheet) => Reading {
            answer: Ok(()),
            sheet,
        },
        Err(refused) => unread(refused),
    }
}

// Reads a site sheet in today's form, in which every line must stand.
pub fn read(text: &[u8]) -> Reading
    ensures { result ≡ read_of text.now }
{
    reading(text, false)
}

// Reads a site sheet in today's form or an older one, in which the lines may be absent of which the table says what they then stand for.
pub fn read_older(text: &[u8]) -> Reading
    ensures { result ≡ older_of text.now }
{
    reading(text, true)
}
