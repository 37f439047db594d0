// The table of lines, one row for each key in the paper's order. specs/Table.antt has it as the paper prints it; the two are tied by computed tests.
ghost use Rattle.std.specs.Prelude.{◌≡◌};
ghost use Rattle.rows.specs.declared.table.Absent.TheVariants.{MustStand};
ghost use Rattle.rows.specs.Facts.{head_of, facts_of};
ghost use Rattle.rows.specs.Table.{form_by};

// How the numbers of a line are written. Listed: first how many numbers it has, then they, plain.
#[derive(Clone, Copy, PartialEq, Eq)]
pub enum Form {
    Plain,
    Worded,
    Signed,
    Listed,
}

// The form by its number, for who has no more than that.
impl From<usize> for Form {
    ghost from_gives = { λ number form. form ≡ form_by number };

    #[tactic(auto, unfolding(crate::specs::Table::form_by, units::specs::Numbers::pick))]
    fn from(number: usize) -> Form {
        match number {
            1 => Form::Worded,
            2 => Form::Signed,
            3 => Form::Listed,
            _ => Form::Plain,
        }
    }
}

// What a line stands for where an older form of the sheet has not got it: a line must stand, or it stands for the number of the line before it, or for none.
#[derive(Clone, Copy, PartialEq, Eq)]
pub enum Absent {
    MustStand,
    AsBefore,
    AsNone,
}

// A key: its letters with blanks after them, how many they are, how its numbers are written, the least and the most of the first, and what its line stands
// for where it may be absent.
#[derive(Clone, Copy)]
pub struct Key {
    pub letters: [u8; 8],
    pub length: usize,
    pub form: Form,
    pub least: u32,
    pub most: u32,
    pub absent: Absent,
}

// How many phases and points a sheet has room for.
pub const MOST_PHASES: usize = 8;

pub const MOST_POINTS: usize = 16;

// Of each key, where its first number stands among the numbers of a sheet, past those of the key before it.
pub const ISSUE: usize = 0;

pub const VEHICLE: usize = ISSUE + 1;

pub const GRADE: usize = VEHICLE + 1;

pub const GRADE2: usize = GRADE + 1;

pub const L01: usize = GRADE2 + 1;

pub const L02: usize = L01 + 1;

pub const PHASES: usize = L02 + 1;

pub const PHASE: usize = PHASES + 1;

pub const TRACK: usize = PHASE + 8 * MOST_PHASES;

pub const TRACK_RED: usize = TRACK + 1;

pub const DWELL: usize = TRACK_RED + 1;

pub const L18: usize = DWELL + 1 + MOST_PHASES;

pub const L19: usize = L18 + 1;

pub const L20: usize = L19 + 1;

pub const L28: usize = L20 + 1;

pub const L30: usize = L28 + 1;

pub const L31: usize = L30 + 1;

pub const L33: usize = L31 + 1;

pub const L37: usize = L33 + 1;

pub const L39: usize = L37 + 1;

pub const L47: usize = L39 + 1;

pub const L56: usize = L47 + 1;

pub const L57: usize = L56 + 1;

pub const L58: usize = L57 + 1;

pub const POINTS: usize = L58 + 1;

pub const POINT: usize = POINTS + 1;

pub const NUMBERS: usize = POINT + 2 * MOST_POINTS;

// The rows: as many of `phase` and of `point` as there is room for, one of each other key. Those before `phase`, and those from `l18` to `points`, have
// one number each; the list for dwell has its count and eight.
pub const FIRST_PHASE: usize = PHASE;

pub const TRACK_ROW: usize = FIRST_PHASE + MOST_PHASES;

pub const DWELL_ROW: usize = TRACK_ROW + 1;

pub const SINGLE_ROW: usize = DWELL_ROW + 1;

pub const SINGLE_SHIFT: usize = L18 - SINGLE_ROW;

pub const FIRST_POINT: usize = POINT - SINGLE_SHIFT;

pub const ROWS: usize = FIRST_POINT + MOST_POINTS;

// The kinds: one for each key, by its place in the printed table (`places::kind` says why they are no enum).
pub const PHASE_KIND: usize = FIRST_PHASE;

pub const TRACK_KIND: usize = PHASE_KIND + 1;

pub const POINT_KIND: usize = TRACK_KIND + (FIRST_POINT - TRACK_ROW);

pub const KINDS: usize = POINT_KIND + 1;

// Where the first number of a row's key stands.
#[tactic(auto, using(crate::proofs::Keys::head_ruled, crate::proofs::Keys::head_past), unfolding(crate::proofs::Keys::head_rule, units::specs::Numbers::pick))]
fn head(row: usize) -> usize
    ensures { result ≡ head_of row }
{
    if row < FIRST_PHASE {
        return row;
    }
    if row < TRACK_ROW {
        return PHASE;
    }
    if row < DWELL_ROW {
        return TRACK;
    }
    if row < SINGLE_ROW {
        return DWELL;
    }
    if row < FIRST_POINT {
        return row + SINGLE_SHIFT;
    }
    if row < ROWS {
        return POINT;
    }
    NUMBERS
}

// The key of a line that must stand.
fn standing(letters: [u8; 8], length: usize, form: Form, least: u32, most: u32) -> Key
    ensures { result ≡ record { letters = letters; length = length; form = form; least = least; most = most; absent = MustStand } }
{
    Key {
        letters,
        length,
        form,
        least,
        most,
        absent: Absent::MustStand,
    }
}

// The key of a row; past the last row, none. Each arm returns by itself, so that a key is written where it is wanted and not picked letter by letter.
pub fn facts(row: usize) -> Key
    ensures { result ≡ facts_of row }
{
    match head(row) {
        ISSUE => return standing(*b"issue   ", 5, Form::Plain, 1, 65535),
        VEHICLE => return standing(*b"vehicle ", 7, Form::Worded, 0, 3),
        GRADE => return standing(*b"grade   ", 5, Form::Signed, 999920, 1000080),
        GRADE2 => return Key {
            absent: Absent::AsBefore,
            ..standing(*b"grade2  ", 6, Form::Signed, 999920, 1000080)
        },
        L01 => return standing(*b"l01     ", 3, Form::Plain, 0, 999),
        L02 => return standing(*b"l02     ", 3, Form::Plain, 1, 999),
        PHASES => return standing(*b"phases  ", 6, Form::Plain, 1, 8),
        PHASE => return standing(*b"phase   ", 5, Form::Plain, 1, 8),
        TRACK => return standing(*b"track   ", 5, Form::Plain, 30, 60),
        DWELL => return Key {
            absent: Absent::AsNone,
            ..standing(*b"dwell   ", 5, Form::Listed, 0, 8)
        },
        L18 => return standing(*b"l18     ", 3, Form::Plain, 0, 1000),
        L19 => return standing(*b"l19     ", 3, Form::Plain, 1, 400),
        L20 => return standing(*b"l20     ", 3, Form::Plain, 1, 150),
        L28 => return standing(*b"l28     ", 3, Form::Plain, 0, 999),
        L30 => return standing(*b"l30     ", 3, Form::Plain, 200, 999),
        L31 => return standing(*b"l31     ", 3, Form::Plain, 0, 999),
        L33 => return standing(*b"l33     ", 3, Form::Plain, 0, 999),
        L37 => return standing(*b"l37     ", 3, Form::Plain, 100, 999),
        L39 => return standing(*b"l39     ", 3, Form::Plain, 0, 999),
        L47 => return standing(*b"l47     ", 3, Form::Plain, 0, 1000),
        L56 => return standing(*b"l56     ", 3, Form::Plain, 30, 999),
        L57 => return standing(*b"l57     ", 3, Form::Plain, 1, 999),
        L58 => return standing(*b"l58     ", 3, Form::Plain, 0, 100),
        POINTS => return standing(*b"points  ", 6, Form::Plain, 2, 16),
        POINT => return standing(*b"point   ", 5, Form::Plain, 0, 400),
        _ => return standing(*b"        ", 0, Form::Plain, 0, 0),
    }
}
