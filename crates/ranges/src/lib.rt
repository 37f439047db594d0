// Whether the numbers of a row are in their ranges.
#![tactic(auto)]

ghost use Rattle.std.specs.Prelude.{◌≡◌, ◌<◌, ◌≤◌, take, get_or};
ghost use Rattle.rows.specs.Facts.{facts_of};
ghost use Rattle.rows.specs.Table.{row_count, form_of, ranges_of, range_of, width_of, place_of, used_ranges, in_range, in_ranges};

use rows::{Form, Key};

// The least of number j of a row, where `first` is that of the first number.
#[tactic(auto, using(rows::proofs::Tables::least_ruled), unfolding(rows::proofs::Tables::least_rule, units::specs::Numbers::pick))]
fn least(row: usize, j: usize, first: u32) -> u32
    requires { (row < row_count) × (j < width_of row) × (first ≡ (range_of row 0).least) }
    ensures { result ≡ (range_of row j).least }
{
    if j == 0 {
        return first;
    }
    if row < rows::table::TRACK_ROW {
        if j == 3 {
            return 30;
        }
        return 0;
    }
    if row == rows::table::DWELL_ROW {
        return 1;
    }
    0
}

// The most of it.
#[tactic(auto, using(rows::proofs::Tables::most_ruled), unfolding(rows::proofs::Tables::most_rule, rows::proofs::Tables::phase_most, units::specs::Numbers::pick))]
fn most(row: usize, j: usize, first: u32) -> u32
    requires { (row < row_count) × (j < width_of row) × (first ≡ (range_of row 0).most) }
    ensures { result ≡ (range_of row j).most }
{
    if j == 0 {
        return first;
    }
    if row < rows::table::TRACK_ROW {
        if j < 3 {
            return 999;
        }
        if j < 5 {
            return 60;
        }
        if j < 7 {
            return 999;
        }
        return 2;
    }
    if row < rows::table::DWELL_ROW {
        return 60;
    }
    if row < rows::FIRST_POINT {
        return 8;
    }
    9999
}

// x is in the range of number j of a row, which has that key.
#[tactic(auto, unfolding(rows::specs::Table::in_range, rows::specs::Facts::facts_of, units::specs::Numbers::pick))]
fn in_range(row: usize, j: usize, key: Key, x: u32) -> bool
    requires { (row < row_count) × (j < width_of row) × (key ≡ facts_of row) }
    ensures { result ≡ in_range (range_of row j) x }
{
    least(row, j, key.least) <= x && x <= most(row, j, key.most)
}

// x is in the range of number j of a row; where the row has no such number, only 0 is.
#[tactic(auto, using(crate::proofs::Ranges::no_number))]
pub fn fits(row: usize, j: usize, x: u32) -> bool
    ensures { result ≡ in_range (range_of row j) x }
{
    if j < places::width(row) {
        return in_range(row, j, rows::facts(row), x);
    }
    x == 0
}

// How many numbers of a row a sheet has, by the row's form: of a list its count and as many as it counts, else all.
#[tactic(auto, using(crate::proofs::Ranges::list_used, crate::proofs::Ranges::no_list, rows::proofs::Tables::place_room, rows::proofs::Tables::width_some))]
fn used(numbers: &[u32; rows::NUMBERS], row: usize, form: Form) -> usize
    requires { (row < row_count) × (form ≡ form_of row) }
    ensures { (result ≤ width_of row) × (take result (ranges_of row) ≡ used_ranges numbers.now row) }
{
    let n = places::width(row);
    match form {
        Form::Listed => n.min(1 + numbers[places::place(row)] as usize),
        _ => n,
    }
}

// Each number of a row is in its range. The key is looked up once.
pub fn in_ranges(numbers: &[u32; rows::NUMBERS], row: usize) -> bool
    ensures { result ≡ in_ranges numbers.now (place_of row) (used_ranges numbers.now row) }
{
    if rows::ROWS <= row {
        return true;
    }
    let key = rows::facts(row);
    let at = places::place(row);
    let n = used(numbers, row, key.form);
    for j in 0..n {
        if !in_range(row, j, key, numbers[at + j]) {
            return false;
        }
    }
    true
}

// Number j of those handed over; 0 past the last.
fn number(numbers: &[u32], j: usize) -> u32
    ensures { result ≡ get_or numbers.now j 0 }
{
    numbers.get(j).copied().unwrap_or(0)
}

// Each of a row's numbers is in its range, where they are handed over one after the other; one that is not there is 0.
pub fn row_fits(row: usize, numbers: &[u32]) -> bool
    ensures { result ≡ in_ranges numbers.now 0 (ranges_of row) }
{
    let count = places::width(row);
    for j in 0..count {
        if !fits(row, j, number(numbers, j)) {
            return false;
        }
    }
    true
}
