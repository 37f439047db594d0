// What is wrong with one row of the numbers: refusals 2 to 6, the lowest first.
#![tactic(auto)]

ghost use Rattle.std.specs.Prelude.{◌≡◌, ◌-◌, Ok};
ghost use Rattle.units.specs.Numbers.{pick};
ghost use Rattle.sheet.specs.declared.Refusal.TheVariants.{PhasesDontRise};
ghost use Rattle.sheet.specs.Refusals.{unless};
ghost use Rattle.rows.specs.Table.{list, is_list, form_of};
ghost use Rattle.faults.specs.Lines.{before_phase, point_fits, list_at, rises_after, rule_fault, row_fault};

use answers::refuse_unless;
use rows::{FIRST_PHASE, FIRST_POINT, Form, NUMBERS, PHASE_KIND, POINT_KIND};
use sheet::{Answer, Phase, Refusal};

#[tactic(auto, unfolding(faults::specs::Lines::before_phase, units::specs::Numbers::pick))]
fn before_phase(numbers: &[u32; NUMBERS], i: usize) -> Phase
    ensures { result ≡ before_phase numbers.now i }
{
    if i == 0 {
        zeros::zero_phase()
    } else {
        entries::phase_at(numbers, i - 1)
    }
}

#[tactic(auto, unfolding(faults::specs::Lines::point_fits, faults::specs::Lines::point_follows, units::specs::Numbers::pick))]
fn point_fits(numbers: &[u32; NUMBERS], i: usize) -> bool
    ensures { result ≡ point_fits numbers.now i }
{
    let p = entries::point_at(numbers, i);
    if i == 0 {
        return entry_rules::point_fits(None, p);
    }
    entry_rules::point_fits(Some(entries::point_at(numbers, i - 1)), p)
}

// The numbers of a row that is a list rise.
fn list_rises(numbers: &[u32; NUMBERS], row: usize) -> bool
    requires { form_of row ≡ list }
    ensures { result ≡ rises_after 0 (list_at numbers.now row) }
{
    let at = places::place(row);
    let list = entries::list_at(numbers, row);
    entry_rules::rises(sheet::counted(&list, numbers[at]))
}

#[tactic(auto, unfolding(rows::specs::Facts::facts_of, units::specs::Numbers::pick))]
fn list_fault(numbers: &[u32; NUMBERS], row: usize, line: u32) -> Answer
    ensures { result ≡ pick (is_list (form_of row)) (unless (rises_after 0 (list_at numbers.now row)) PhasesDontRise line) (Ok tt) }
{
    match rows::facts(row).form {
        Form::Listed => refuse_unless(list_rises(numbers, row), Refusal::PhasesDontRise, line),
        Form::Plain | Form::Worded | Form::Signed => Ok(()),
    }
}

#[tactic(auto, unfolding(faults::specs::Lines::rule_fault, units::specs::Numbers::pick))]
fn rule_fault(numbers: &[u32; NUMBERS], row: usize, line: u32) -> Answer
    ensures { result ≡ rule_fault numbers.now row line }
{
    match places::kind(row) {
        PHASE_KIND => {
            let i = row.saturating_sub(FIRST_PHASE);
            let before = before_phase(numbers, i);
            entry_rules::phase_fault(before, entries::phase_at(numbers, i), line)
        }
        POINT_KIND => {
            let fits = point_fits(numbers, row.saturating_sub(FIRST_POINT));
            refuse_unless(fits, Refusal::PointsDontRise, line)
        }
        _ => list_fault(numbers, row, line),
    }
}

// The fault of a row of the numbers, on that line of the text.
#[tactic(auto, unfolding(faults::specs::Lines::row_fault, sheet::specs::Refusals::or_else))]
pub fn row_fault(numbers: &[u32; NUMBERS], row: usize, line: u32) -> Answer
    ensures { result ≡ row_fault numbers.now row line }
{
    refuse_unless(ranges::in_ranges(numbers, row), Refusal::OutOfRange, line)?;
    rule_fault(numbers, row, line)
}
