// The lines that part a run: `run` before the events, `done` after the text of a load.
use intake::FromLines;

// A line that is a word alone: what stands before it, what after it, and how many lines there are up to it and with it.
#[derive(Clone, Copy)]
pub(crate) struct Marked<'a> {
    pub(crate) before: &'a [u8],
    pub(crate) after: &'a [u8],
    pub(crate) lines: usize,
}

// A `for`, and no `find_map`: that was tried, and the proof of its closure, which lends what it was lent, was not made.
pub(crate) fn find_line<'a>(s: &'a [u8], word: &[u8]) -> Option<Marked<'a>> {
    for (i, rest) in FromLines(s).enumerate() {
        if let Some(after) = rest.strip_prefix(word) {
            return Some(Marked {
                before: &s[..s.len().saturating_sub(rest.len())],
                after,
                lines: i.wrapping_add(1),
            });
        }
    }
    None
}
