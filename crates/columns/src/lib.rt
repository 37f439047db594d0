// Table 628-B in the page's order, a printed row to a line, for a proofreader with the page beside it. A row has what is printed behind the point, 06 for 1.06: every factor is 1 and these hundredths.
#![tactic(auto)]

ghost use Rattle.std.specs.Prelude.{◌≡◌};
ghost use Rattle.units.specs.Numbers.{hundredths};
ghost use Rattle.table.specs.Table.{entry_of};

use units::Hundredths;

const TABLE: [[u8; 14]; 16] = [
    // SU              bus                 WB-50
    // 2   4   6   8   1   2   4   6   8   0   2   4   6   8 percent
    [00, 06, 13, 19, 00, 01, 10, 19, 28, 00, 09, 27, 42, 55], // 25 ft
    [00, 09, 17, 25, 00, 01, 12, 21, 30, 00, 10, 28, 44, 58], // 50 ft
    [00, 10, 19, 29, 00, 02, 13, 23, 33, 00, 11, 30, 47, 61], // 75 ft
    [00, 11, 21, 32, 00, 02, 14, 25, 35, 00, 11, 31, 48, 64], // 100 ft
    [00, 12, 23, 34, 00, 03, 15, 26, 37, 00, 12, 32, 50, 66], // 125 ft
    [00, 12, 24, 37, 00, 03, 16, 28, 40, 00, 12, 33, 52, 68], // 150 ft
    [00, 13, 25, 38, 00, 03, 17, 29, 42, 00, 12, 34, 53, 70], // 175 ft
    [00, 13, 26, 40, 00, 04, 17, 30, 43, 00, 13, 35, 54, 72], // 200 ft
    [00, 14, 27, 42, 00, 04, 18, 32, 45, 00, 13, 35, 56, 74], // 225 ft
    [00, 14, 28, 43, 00, 04, 19, 33, 47, 00, 13, 36, 57, 76], // 250 ft
    [00, 14, 29, 44, 00, 05, 20, 34, 49, 00, 14, 37, 58, 77], // 275 ft
    [00, 14, 30, 46, 00, 05, 20, 35, 50, 00, 14, 37, 59, 79], // 300 ft
    [00, 15, 30, 47, 00, 05, 21, 36, 52, 00, 14, 38, 60, 81], // 325 ft
    [00, 15, 31, 48, 00, 05, 22, 37, 54, 00, 15, 39, 61, 82], // 350 ft
    [00, 15, 31, 49, 00, 06, 22, 38, 55, 00, 15, 39, 62, 84], // 375 ft
    [00, 15, 32, 50, 00, 06, 23, 40, 57, 00, 15, 40, 63, 85], // 400 ft
];

// What the table has at a column and a row; 0 outside it. The bounds stand as tests, and not in `TABLE.get(row)`: that was tried, and what `get` gives of a row of rows stayed open.
pub fn entry(col: usize, row: usize) -> Hundredths
    ensures { result ≡ hundredths (entry_of row col) }
{
    if 14 <= col {
        return Hundredths(0); // past the last column
    }
    if 16 <= row {
        return Hundredths(0); // past the last row
    }
    Hundredths(100 + u64::from(TABLE[row][col]))
}
