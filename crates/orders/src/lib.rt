// The ticks of a run as lines: `tick=CALL`, `tick=CALL,NEXT` and `ticks=CALL,COUNT`.
#![tactic(auto)]

ghost use Rattle.std.specs.Prelude.{◌≡◌};
ghost use Rattle.orders.specs.Orders.{value_at, two_at, order_at};

use figures::Figure;
use stage::Command;

// The command and the call at each tick, how many ticks, and the place of the next event.
#[derive(Clone, Copy)]
pub struct Order {
    pub command: Command,
    pub call: bool,
    pub count: u32,
    pub next: usize,
}

// A line that is none of these: the call of `tick=CALL`, whatever follows it; off where no such call stands there.
#[derive(Clone, Copy)]
pub struct Malformed {
    pub call: bool,
}

// A call and a number after it, and the place past their line.
#[derive(Clone, Copy)]
pub struct Two {
    pub call: bool,
    pub value: u32,
    pub next: usize,
}

// A number from `least` to `most` after a word.
fn number(s: &[u8], at: usize, word: &[u8], least: u32, most: u32) -> Option<Figure>
    ensures { result ≡ value_at s.now at word.now least most }
{
    let start = words::after(s, at, word)?;
    let figure = digits::number(s, start)?;
    if figure.value < least || most < figure.value {
        return None;
    }
    Some(figure)
}

// WORD CALL , NUMBER
fn two_numbers(s: &[u8], at: usize, word: &[u8], least: u32, most: u32) -> Option<Two>
    ensures { result ≡ two_at s.now at word.now least most }
{
    let call = number(s, at, word, 0, 1)?;
    let second = number(s, call.next, b",", least, most)?;
    let next = words::after(s, second.next, b"\n")?;
    Some(Two {
        call: call.value == 1,
        value: second.value,
        next,
    })
}

// The line at a place, if it is one of these.
pub fn read(s: &[u8], at: usize) -> Result<Order, Malformed>
    ensures { result ≡ order_at s.now at }
{
    if let Some(many) = two_numbers(s, at, b"ticks=", 1, 999999) {
        return Ok(Order {
            command: Command::None,
            call: many.call,
            count: many.value,
            next: many.next,
        });
    }
    if let Some(one) = two_numbers(s, at, b"tick=", 0, 255) {
        return Ok(Order {
            command: Command::End(one.value),
            call: one.call,
            count: 1,
            next: one.next,
        });
    }
    let Some(alone) = number(s, at, b"tick=", 0, 1) else {
        return Err(Malformed { call: false });
    };
    let call = alone.value == 1;
    let Some(next) = words::after(s, alone.next, b"\n") else {
        return Err(Malformed { call });
    };
    Ok(Order {
        command: Command::None,
        call,
        count: 1,
        next,
    })
}
