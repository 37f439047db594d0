// Standard input, as far as a buffer goes, and how the programs part it: by a byte, into texts or by its lines.
#![tactic(auto)]

ghost use Rattle.std.specs.Prelude.{◌≤◌, ◌≡◌, ◌==◌, ◌+◌, length, take, drop, position, MatchOption, None};
ghost use Rattle.std.specs.List.{position_or_len};

use scan::place;
use std::io::Read;

// Reads until the buffer is full, the input ends or a read fails, and returns how many bytes it put at the start of the buffer. A read that a signal
// interrupts counts as one that failed.
pub fn read_full<R: Read>(reader: &mut R, buffer: &mut [u8]) -> usize
    ensures { result ≤ length buffer.new }
{
    // A `while`: how many bytes come at a turn is the reader's affair.
    let mut done = 0;
    while done < buffer.len() {
        let n = reader.read(&mut buffer[done..]).unwrap_or(0);
        if n == 0 {
            break;
        }
        done += n;
    }
    done
}

// What stands before the first such byte, and what from it on.
fn before(s: &[u8], byte: u8) -> (&[u8], &[u8])
    ensures front { result.0.now ≡ take (position_or_len (λ b. b == byte) s.now) s.now }
    ensures back { result.1.now ≡ drop (position_or_len (λ b. b == byte) s.now) s.now }
{
    let n = place(s, byte).unwrap_or(s.len());
    s.split_at(n)
}

// What stands before the first such byte, and what after it; None where there is no such byte.
pub fn split_once(s: &[u8], byte: u8) -> Option<(&[u8], &[u8])>
    ensures { MatchOption result (position (λ b. b == byte) s.now ≡ None) (λ p. (p.0.now ≡ take (position_or_len (λ b. b == byte) s.now) s.now) × (p.1.now ≡ drop (position_or_len (λ b. b == byte) s.now + 1) s.now)) }
{
    let n = place(s, byte)?;
    Some((&s[..n], &s[n + 1..]))
}

// Texts one after the other, each after a line `#NAME`: the name and the text.
#[derive(Drop)]
pub struct Texts<'a>(pub &'a [u8]);

// The first byte is skipped, whatever it is. The name ends at a line feed, and the text before the next `#`.
impl<'a> Iterator for Texts<'a> {
    type Item = (&'a [u8], &'a [u8]);

    ghost use Rattle.std.specs.Prelude.{length};
    ghost use Rattle.std.specs.Iterator.{at_most};

    ghost remaining = { λ s. at_most (length s.0.now) };

    fn next(&mut self) -> Option<(&'a [u8], &'a [u8])> {
        let (_, named) = self.0.split_first()?;
        let (name, after) = before(named, b'\n');
        let (text, next) = before(after.strip_prefix(b"\n").unwrap_or(after), b'#');
        self.0 = next;
        Some((name, text))
    }
}

// What is left of a text from the start of each of its lines on.
#[derive(Drop)]
pub struct FromLines<'a>(pub &'a [u8]);

impl<'a> Iterator for FromLines<'a> {
    type Item = &'a [u8];

    ghost use Rattle.std.specs.Prelude.{length};
    ghost use Rattle.std.specs.Iterator.{at_most};

    ghost remaining = { λ s. at_most (length s.0.now) };

    fn next(&mut self) -> Option<&'a [u8]> {
        let here = self.0;
        if here.is_empty() {
            return None;
        }
        self.0 = match split_once(here, b'\n') {
            Some((_, next)) => next,
            None => b"",
        };
        Some(here)
    }
}
