// Where a byte stands in a text.
#![tactic(auto)]

ghost use Rattle.std.specs.Prelude.{◌≡◌, ◌==◌};
ghost use Rattle.std.specs.List.{position};
ghost use Rattle.scan.specs.Find.{find_at};

// The first place of the byte; None where there is none.
pub fn place(s: &[u8], byte: u8) -> Option<usize>
    ensures { result ≡ position (λ b. b == byte) s.now }
{
    s.iter().position(|b| *b == byte)
}

// The first place from `from` on where the byte stands; the text's length where there is none, so that a piece of the text ends there in either case.
pub fn find(s: &[u8], from: usize, byte: u8) -> usize
    ensures { result ≡ find_at s.now from byte }
{
    let start = from.min(s.len());
    match place(&s[start..], byte) {
        Some(i) => start + i,
        None => s.len(),
    }
}
