// A number at a place of a text, plain or with a minus.
#![tactic(auto)]

ghost use Rattle.std.specs.Prelude.{◌≡◌};
ghost use Rattle.figures.specs.Figures.{number_at, signed_at};

use figures::Figure;

// The number that starts at a place of the text.
pub fn number(s: &[u8], at: usize) -> Option<Figure>
    ensures { result ≡ number_at s.now at }
{
    let first = *s.get(at)?;
    if !first.is_ascii_digit() {
        return None;
    }
    let mut value = u32::from(first - b'0');
    for next in at + 1..s.len() {
        let b = s[next];
        if !b.is_ascii_digit() {
            return Some(Figure { value, next });
        }
        if value == 0 || 99999 < value {
            return None;
        }
        value = value * 10 + u32::from(b - b'0');
    }
    Some(Figure {
        value,
        next: s.len(),
    })
}

// A number that may carry a minus, as 1,000,000 more than it is.
pub fn signed(s: &[u8], at: usize) -> Option<Figure>
    ensures { result ≡ signed_at s.now at }
{
    let Some(p) = words::after(s, at, b"-") else {
        let plain = number(s, at)?;
        return Some(Figure {
            value: 1000000 + plain.value,
            next: plain.next,
        });
    };
    let below = number(s, p)?;
    if below.value == 0 {
        return None;
    }
    Some(Figure {
        value: 1000000 - below.value,
        next: below.next,
    })
}
