// A test that refuses where it fails: a chain of them is left by `?` at the first.
#![tactic(auto)]

ghost use Rattle.std.specs.Prelude.{◌≡◌};
ghost use Rattle.sheet.specs.Refusals.{unless};

use sheet::{Answer, Refusal, Refused};

// Refused on that line unless the test holds.
pub fn refuse_unless(holds: bool, refusal: Refusal, line: u32) -> Answer
    ensures { result ≡ unless holds refusal line }
{
    if holds {
        Ok(())
    } else {
        Err(Refused { refusal, line })
    }
}
