// How long a text can be.
#![tactic(auto)]

ghost use Rattle.std.specs.Prelude.{◌≡◌, ◌+◌};
ghost use Rattle.rows.specs.Longest.{longest};

// The longest text that a sheet can have, and room for it and one byte: with so much a program sees that a text is longer.
pub const LONGEST: usize = 1146;

pub const BUFFER: usize = LONGEST + 1;

// How many bytes of a text decide what it is read as. A constant has no contract: here it is proved to be the length that the definitions give.
pub fn buffer() -> usize
    ensures { result ≡ longest + 1 }
{
    BUFFER
}
