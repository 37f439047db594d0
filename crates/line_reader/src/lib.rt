// A line of a text by its row of the table: its key, its numbers and a line feed, and what is wrong with it.
#![tactic(auto)]

ghost use Rattle.std.specs.Prelude.{◌≡◌, ℕ, ◌+◌, ◌-◌, ◌≤◌, ◌<◌, List, true, get_or, set, take};
ghost use Rattle.rows.specs.Table.{is_list, row_count, number_count, range_of, width_of, place_of};
ghost use Rattle.rows.specs.Marks.{mark_of};
ghost use Rattle.sheet.specs.declared.Refusal.TheVariants.{Malformed};
ghost use Rattle.faults.specs.Lines.{row_fault};
ghost use Rattle.figures.specs.Figures.{on_place, after_at};
ghost use Rattle.text.specs.Line.{taken, bad, fields, list_count, list_fields, values_at, ended};
ghost use Rattle.text.specs.Read.{reached, judged_at};
ghost use Rattle.text.proofs.Past.{past_at};

use rows::{Form, Key, NUMBERS, ROWS};
use sheet::{Answer, Refusal, Refused};
use text::Faulty;

// What stands before number j of a line.
fn mark(j: usize) -> &'static [u8]
    ensures { result.now ≡ mark_of j }
{
    if j == 0 { b"=" } else { b"," }
}

// n numbers of a line of that form, stored from a place on. Like each function below it gives the place past what it read; its numbers stand in the array lent.
fn fields(
    s: &[u8],
    at: usize,
    form: Form,
    place: usize,
    n: usize,
    v: &mut [u32; NUMBERS],
) -> Option<usize>
    requires { place + n ≤ number_count }
    ensures { taken result v.new ≡ fields s.now form place n 0 at v.old }
{
    let mut next = at;
    for j in 0..n {
        let start = words::after(s, next, mark(j))?;
        let figure = field::written(s, start, form)?;
        v[place + j] = figure.value;
        next = figure.next;
    }
    Some(next)
}

// How many numbers a list has of which k were read, the first of them x: 0 stands for none only when it is alone.
fn count(k: usize, x: u32) -> u32
    requires { k ≤ number_count }
    ensures { result ≡ list_count k x }
{
    if k == 1 && x == 0 { 0 } else { k as u32 }
}

// A list that is over after k numbers: how many they are is stored before them.
fn counted(place: usize, k: usize, v: &mut [u32; NUMBERS])
    requires { (place + 1 < number_count) × (k ≤ number_count) }
    ensures { v.new ≡ set v.old place (list_count k (get_or v.old (place + 1) 0)) }
{
    v[place] = count(k, v[place + 1]);
}

// A list of at most n numbers, stored after their count. One must stand; where no comma follows the list is over.
fn list(s: &[u8], at: usize, place: usize, n: usize, v: &mut [u32; NUMBERS]) -> Option<usize>
    requires { (place + 1 + n ≤ number_count) × (1 ≤ n) }
    ensures { taken result v.new ≡ list_fields s.now place n 0 at v.old }
{
    let mut next = at;
    for k in 0..n {
        let Some(start) = words::after(s, next, mark(k)) else {
            if k == 0 {
                return None;
            }
            counted(place, k, v);
            return Some(next);
        };
        let figure = digits::number(s, start)?;
        v[place + 1 + k] = figure.value;
        next = figure.next;
    }
    counted(place, n, v);
    Some(next)
}

// The numbers of a line by its form, stored from a place on. A list has its count there first, which the text does not say.
fn values(
    s: &[u8],
    at: usize,
    form: Form,
    place: usize,
    n: usize,
    v: &mut [u32; NUMBERS],
) -> Option<usize>
    requires { (place + n ≤ number_count) × (is_list form ≡ true → 2 ≤ n) }
    ensures { taken result v.new ≡ values_at s.now form place n at v.old }
{
    match form {
        Form::Listed => list(s, at, place, n - 1, v),
        Form::Plain | Form::Worded | Form::Signed => fields(s, at, form, place, n, v),
    }
}

// The line of a key at a place of the text, with n numbers.
fn line(
    s: &[u8],
    at: usize,
    facts: Key,
    place: usize,
    n: usize,
    v: &mut [u32; NUMBERS],
) -> Option<usize>
    requires { (facts.length ≤ 8) × (place + n ≤ number_count) × (is_list facts.form ≡ true → 2 ≤ n) }
    ensures { taken result v.new ≡ on_place (after_at s.now at (take facts.length facts.letters)) (λ p. ended s.now (values_at s.now facts.form place n p v.old)) (bad v.old) }
{
    let start = words::after(s, at, &facts.letters[..facts.length])?;
    let end = values(s, start, facts.form, place, n, v)?;
    words::after(s, end, b"\n")
}

// The fault of a row with n numbers. A line of one number has no rule but the range of its key.
fn fault(v: &[u32; NUMBERS], row: usize, number: u32, facts: Key, place: usize, n: usize) -> Answer
    requires { (row < row_count) × (place ≡ place_of row) × (n ≡ width_of row) × (facts.least ≡ (range_of row 0).least) × (facts.most ≡ (range_of row 0).most) }
    ensures { result ≡ row_fault v.now row number }
{
    if n == 1 {
        let x = v[place];
        if x < facts.least || facts.most < x {
            return Err(Refused {
                refusal: Refusal::OutOfRange,
                line: number,
            });
        }
        return Ok(());
    }
    row_fault::row_fault(v, row, number)
}

// "1: a line is .. malformed".
fn malformed(number: u32) -> Faulty
    ensures { result ≡ record { refused = record { refusal = Malformed; line = number }; next = 0 } }
{
    Faulty {
        refused: Refused {
            refusal: Refusal::Malformed,
            line: number,
        },
        next: 0,
    }
}

// The line of a row of the table with its fault, by its line number. The key is looked up once.
fn known(
    s: &[u8],
    at: usize,
    row: usize,
    number: u32,
    v: &mut [u32; NUMBERS],
) -> Result<usize, Faulty>
    requires { row < row_count }
    ensures { reached result v.new ≡ judged_at s.now at row number v.old }
{
    let facts = rows::facts(row);
    let place = places::place(row);
    let n = places::width(row);
    let Some(next) = line(s, at, facts, place, n, v) else {
        return Err(malformed(number));
    };
    match fault(v, row, number, facts, place, n) {
        Ok(()) => Ok(next),
        Err(refused) => Err(Faulty { refused, next }),
    }
}

// A row past the table has no key and no number: its line is a line feed. No reader asks for one.
fn past(s: &[u8], at: usize, number: u32) -> Result<usize, Faulty>
    ensures { (v : List ℕ) → reached result v ≡ past_at s.now at number v }
{
    words::after(s, at, b"\n").ok_or(malformed(number))
}

// The line of a row at a place of the text with its fault, by its line number: the place past it, beside a fault too. Its numbers are stored in the array lent.
pub fn judged(
    s: &[u8],
    at: usize,
    row: usize,
    number: u32,
    v: &mut [u32; NUMBERS],
) -> Result<usize, Faulty>
    ensures { reached result v.new ≡ judged_at s.now at row number v.old }
{
    if row < ROWS {
        return known(s, at, row, number, v);
    }
    past(s, at, number)
}
