// Where a distance and a grade stand between the marks of a printed table, and what is straight between its entries: in specs/ the paper's rules of it and what is promised, in proofs/ the laws. The functions stand in `scaled`.
#![tactic(auto)]

#[derive(Clone, Copy)]
pub struct Fraction {
    pub over: u64,
    pub under: u64,
}

// Where a number stands on a scale: after which mark, how far past it, how far the next mark is.
#[derive(Clone, Copy)]
pub struct Place {
    pub step: usize,
    pub past: u16,
    pub width: u16,
}
