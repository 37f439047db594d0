// The paper's number of a refusal, and the number and the line of an answer.
#![tactic(auto)]

ghost use Rattle.std.specs.Prelude.{◌≡◌};
ghost use Rattle.sheet.specs.Refusals.{number_of, answer_number, answer_line, code_of};

use sheet::{Answer, Refusal, Refused};
use std::fmt;

// The paper's number of a refusal.
pub fn number(refusal: Refusal) -> u32
    ensures { result ≡ number_of refusal }
{
    match refusal {
        Refusal::Malformed => 1,
        Refusal::OutOfRange => 2,
        Refusal::PhasesDontRise => 3,
        Refusal::PointsDontRise => 4,
        Refusal::PedestriansInModeZero => 5,
        Refusal::ClearanceTooShort => 6,
        Refusal::RelocationBeyondStorage => 7,
        Refusal::WarningTooShort => 8,
        Refusal::RelocationTooFar => 9,
        Refusal::TrackLongerThanTransfer => 10,
        Refusal::NoRoom => 11,
        Refusal::DwellPhaseNotListed => 12,
        Refusal::UnitUnfit => 20,
        Refusal::LoadNotNow => 21,
        Refusal::IssueNotNewer => 22,
        Refusal::CommandNotAllowed => 23,
    }
}

// The number and the line of an answer, 0 and 0 where it is fine.
pub fn answer_number(answer: Answer) -> u32
    ensures { result ≡ answer_number answer }
{
    match answer {
        Ok(()) => 0,
        Err(Refused { refusal, .. }) => number(refusal),
    }
}

pub fn answer_line(answer: Answer) -> u32
    ensures { result ≡ answer_line answer }
{
    match answer {
        Ok(()) => 0,
        Err(Refused { line, .. }) => line,
    }
}

// Both as one number, for other languages: 0 where the answer is fine.
pub fn code(answer: Answer) -> u64
    ensures { result ≡ code_of answer }
{
    let number = u64::from(answer_number(answer));
    let line = u64::from(answer_line(answer));
    4294967296 * number + line
}

// An answer as the programs print it.
#[derive(Clone, Copy)]
pub struct Numbered(pub Answer);

impl fmt::Display for Numbered {
    ghost use Rattle.std.specs.Prelude.{Some};
    ghost use Rattle.numbering.specs.Printed.{numbered_text};

    ghost output = { λ x. Some (numbered_text x.0) };

    fn fmt<W: fmt::Write>(&self, f: &mut fmt::Formatter<W>) -> fmt::Result {
        let number = answer_number(self.0);
        let line = answer_line(self.0);
        write!(f, "{number},{line}")
    }
}
