// A number of a line at a place of the text, in the form that the table has for it: plain, with a minus, or a vehicle's word.
#![tactic(auto)]

ghost use Rattle.std.specs.Prelude.{◌≡◌, None};
ghost use Rattle.figures.specs.Figures.{is, on_place, after_at};
ghost use Rattle.rows.specs.Table.{form_by};
ghost use Rattle.text.specs.Line.{word_at, field_at};

use figures::Figure;
use rows::Form;

// The number x where the word w stands at a place.
fn named(s: &[u8], at: usize, w: &[u8], x: u32) -> Option<Figure>
    ensures { result ≡ on_place (after_at s.now at w.now) (λ p. is x p) None }
{
    let next = words::after(s, at, w)?;
    Some(Figure { value: x, next })
}

// A vehicle's word, by its number: a line's numbers stand in one array with all others, and a vehicle is a number there (`word_of` of the table).
fn word(s: &[u8], at: usize) -> Option<Figure>
    ensures { result ≡ word_at s.now at }
{
    named(s, at, b"car", 0)
        .or_else(|| named(s, at, b"su", 1))
        .or_else(|| named(s, at, b"bus", 2))
        .or_else(|| named(s, at, b"wb50", 3))
}

// A number in a line's form. Those of a list are plain.
pub fn written(s: &[u8], at: usize, form: Form) -> Option<Figure>
    ensures { result ≡ field_at s.now at form }
{
    match form {
        Form::Worded => word(s, at),
        Form::Signed => digits::signed(s, at),
        Form::Plain | Form::Listed => digits::number(s, at),
    }
}

// The same by the number of the form: it stays beside `written`, since its contract is for any number.
pub fn field(s: &[u8], at: usize, form: usize) -> Option<Figure>
    ensures { result ≡ field_at s.now at (form_by form) }
{
    written(s, at, Form::from(form))
}
