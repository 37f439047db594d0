// A word at a place of a text.
#![tactic(auto)]

ghost use Rattle.std.specs.Prelude.{◌≡◌};
ghost use Rattle.figures.specs.Figures.{after_at};

// The place past a word that stands at a place of the text.
pub fn after(s: &[u8], at: usize, w: &[u8]) -> Option<usize>
    ensures { result ≡ after_at s.now at w.now }
{
    let mut next = at;
    for letter in w {
        match s.get(next) {
            Some(byte) if *byte == *letter => next += 1,
            _ => return None,
        }
    }
    Some(next)
}
