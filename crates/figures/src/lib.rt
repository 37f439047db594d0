// A number at a place of a text. `digits` finds them, and `words` the place past a word.
#![tactic(auto)]

// A number found in the text, and the place past it.
#[derive(Clone, Copy)]
pub struct Figure {
    pub value: u32,
    pub next: usize,
}
