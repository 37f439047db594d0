// The text of a site sheet: what a text is read as and what a sheet is written as are defined here, and nothing is worked out: `reader` and `writer` have
// the functions.
#![tactic(auto)]

use sheet::{Answer, Refused, Sheet};

// The answer to a text, and its sheet, which is the zero sheet where the answer is a refusal. This is no Result, since a refused read has its zero sheet too: the
// contracts of `reader::read` and `reader::read_older` and the theorem RefusedIsZero hold the pair.
#[derive(Clone, Copy)]
pub struct Reading {
    pub answer: Answer,
    pub sheet: Sheet,
}

// What is wrong with a line, and the place past it; that is 0 where the line is malformed.
#[derive(Clone, Copy)]
pub struct Faulty {
    pub refused: Refused,
    pub next: usize,
}

// The answer to writing a sheet, and the text's length, which is 0 where the answer is a refusal. This is no Result, since a refused write has its 0 too: the
// contracts of `writer::write` and `converter::convert` hold the pair.
#[derive(Clone, Copy)]
pub struct Written {
    pub answer: Answer,
    pub length: usize,
}
