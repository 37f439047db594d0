// The rows of a sheet's text by their numbers: the kind of each, where its numbers stand, how many they are, and whether the text has it.
#![tactic(auto)]

ghost use Rattle.std.specs.Prelude.{◌≡◌, ◌<◌};
ghost use Rattle.rows.specs.Table.{kind_of, width_of, place_of, present};

use rows::{FIRST_PHASE, FIRST_POINT, NUMBERS, PHASE_KIND, POINT_KIND, ROWS, table};

// The kind of a row; past the last row, none. A kind is a place in the printed table, whose order `kind_of` counts, and no code of ours: as an enum it would be
// the same 25 names in that order, told from their places.
#[tactic(auto, using(rows::proofs::Tables::kind_ruled, rows::proofs::Tables::kind_past), unfolding(rows::proofs::Tables::kind_rule, units::specs::Numbers::pick))]
pub fn kind(row: usize) -> usize
    ensures { result ≡ kind_of row }
{
    if row < FIRST_PHASE {
        return row;
    }
    if row < table::TRACK_ROW {
        return PHASE_KIND;
    }
    if row < FIRST_POINT {
        return table::TRACK_KIND + (row - table::TRACK_ROW);
    }
    if row < ROWS {
        return POINT_KIND;
    }
    table::KINDS
}

// Where a row's numbers stand. The track's come right after those of the phases.
#[tactic(auto, using(rows::proofs::Tables::place_ruled, rows::proofs::Tables::place_past), unfolding(rows::proofs::Tables::place_rule, units::specs::Numbers::pick))]
pub fn place(row: usize) -> usize
    ensures { result ≡ place_of row }
{
    if row < FIRST_PHASE {
        return row;
    }
    if row < table::DWELL_ROW {
        return table::PHASE + 8 * (row - FIRST_PHASE);
    }
    if row < table::SINGLE_ROW {
        return table::DWELL;
    }
    if row < FIRST_POINT {
        return row + table::SINGLE_SHIFT;
    }
    if row < ROWS {
        return table::POINT + 2 * (row - FIRST_POINT);
    }
    NUMBERS
}

// How many numbers a row has.
#[tactic(auto, using(rows::proofs::Tables::width_ruled, rows::proofs::Tables::width_past), unfolding(rows::proofs::Tables::width_rule, units::specs::Numbers::pick))]
pub fn width(row: usize) -> usize
    ensures { result ≡ width_of row }
{
    if row < FIRST_PHASE {
        return 1;
    }
    if row < table::TRACK_ROW {
        return 8;
    }
    if row < table::DWELL_ROW {
        return 2;
    }
    if row < table::SINGLE_ROW {
        return 9;
    }
    if row < FIRST_POINT {
        return 1;
    }
    if row < ROWS {
        return 2;
    }
    0 // no row
}

// The sheet's text has this row: all but the phases and points past the counts.
#[tactic(auto, unfolding(rows::specs::Table::present, units::specs::Numbers::pick))]
pub fn present(numbers: &[u32; NUMBERS], row: usize) -> bool
    ensures { result ≡ present numbers.now row }
{
    if row < FIRST_PHASE {
        return true;
    }
    if row < table::TRACK_ROW {
        return row - FIRST_PHASE < numbers[table::PHASES] as usize;
    }
    if row < FIRST_POINT {
        return true;
    }
    row - FIRST_POINT < numbers[table::POINTS] as usize
}
