// The 61 lines of the worksheet, whole and by sections: in specs/ each line as 628 and the paper define it and what is promised of an accepted sheet, in
// proofs/ the laws. The functions stand in `form` and `listing`.
#![tactic(auto)]

use sheet::Answer;
use units::{Feet, Hundredths, Tenths};

#[derive(Clone, Copy, Default)]
pub struct Lines {
    pub l01: Tenths,
    pub l02: Tenths,
    pub l03: Tenths,
    pub l04: u32,
    pub l05: Tenths,
    pub l06: Tenths,
    pub l07: Tenths,
    pub l08: Tenths,
    pub l09: Tenths,
    pub l10: u32,
    pub l11: Tenths,
    pub l12: Tenths,
    pub l13: Tenths,
    pub l14: Tenths,
    pub l15: Tenths,
    pub l16: Tenths,
    pub l17: Tenths,
    pub l18: Feet,
    pub l19: Feet,
    pub l20: Feet,
    pub l21: Feet,
    pub l22: Tenths,
    pub l23: Feet,
    pub l24: Tenths,
    pub l25: Tenths,
    pub l26: Tenths,
    pub l27: Tenths,
    pub l28: Tenths,
    pub l29: Tenths,
    pub l30: Tenths,
    pub l31: Tenths,
    pub l32: Tenths,
    pub l33: Tenths,
    pub l34: Tenths,
    pub l35: Tenths,
    pub l36: Tenths,
    pub l37: Hundredths,
    pub l38: Tenths,
    pub l39: Tenths,
    pub l40: Tenths,
    pub l41: Tenths,
    pub l42: Tenths,
    pub l43: Tenths,
    pub l44: Tenths,
    pub l45: Tenths,
    pub l46: Feet,
    pub l47: Feet,
    pub l48: Feet,
    pub l49: Tenths,
    pub l50: Tenths,
    pub l51: Tenths,
    pub l52: Tenths,
    pub l53: Tenths,
    pub l54: Tenths,
    pub l55: Tenths,
    pub l56: Tenths,
    pub l57: Tenths,
    pub l58: Hundredths,
    pub l59: Tenths,
    pub l60: Tenths,
    pub l61: Tenths,
}

// The answer to a sheet, and its lines. Not a Result: a refused sheet has its zero lines too, by `RefusedGivesZeros`.
#[derive(Clone, Copy)]
pub struct Worked {
    pub answer: Answer,
    pub lines: Lines,
}

// What the worksheet says to the sequence: the answer, and lines 3 and 51, which it goes by; both 0 of a refused sheet, for the same reason.
#[derive(Clone, Copy)]
pub struct Timed {
    pub answer: Answer,
    pub l03: Tenths,
    pub l51: Tenths,
}

// ---- by sections

// Lines 1 to 3, 16 and 17.
#[derive(Clone, Copy)]
pub struct Transfer {
    pub l01: Tenths,
    pub l02: Tenths,
    pub l03: Tenths,
    pub l16: Tenths,
    pub l17: Tenths,
}

// Lines 4 to 9, of the phase with the largest vehicle time.
#[derive(Clone, Copy)]
pub struct Vehicles {
    pub l04: u32,
    pub l05: Tenths,
    pub l06: Tenths,
    pub l07: Tenths,
    pub l08: Tenths,
    pub l09: Tenths,
}

// Lines 10 to 15, of the phase with the largest pedestrian time.
#[derive(Clone, Copy)]
pub struct Pedestrians {
    pub l10: u32,
    pub l11: Tenths,
    pub l12: Tenths,
    pub l13: Tenths,
    pub l14: Tenths,
    pub l15: Tenths,
}

// Lines 18 to 25.
#[derive(Clone, Copy)]
pub struct Clearance {
    pub l18: Feet,
    pub l19: Feet,
    pub l20: Feet,
    pub l21: Feet,
    pub l22: Tenths,
    pub l23: Feet,
    pub l24: Tenths,
    pub l25: Tenths,
}

// Lines 28 to 35.
#[derive(Clone, Copy)]
pub struct Warning {
    pub l28: Tenths,
    pub l29: Tenths,
    pub l30: Tenths,
    pub l31: Tenths,
    pub l32: Tenths,
    pub l33: Tenths,
    pub l34: Tenths,
    pub l35: Tenths,
}

// Lines 37 to 44.
#[derive(Clone, Copy)]
pub struct Gates {
    pub l37: Hundredths,
    pub l38: Tenths,
    pub l39: Tenths,
    pub l40: Tenths,
    pub l42: Tenths,
    pub l43: Tenths,
    pub l44: Tenths,
}

// Lines 47 to 51.
#[derive(Clone, Copy)]
pub struct Green {
    pub l47: Feet,
    pub l48: Feet,
    pub l49: Tenths,
    pub l50: Tenths,
    pub l51: Tenths,
}

// Lines 54 to 61.
#[derive(Clone, Copy)]
pub struct Street {
    pub l54: Tenths,
    pub l55: Tenths,
    pub l56: Tenths,
    pub l57: Tenths,
    pub l58: Hundredths,
    pub l59: Tenths,
    pub l60: Tenths,
    pub l61: Tenths,
}
