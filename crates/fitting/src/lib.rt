// Whether a unit fits its sheet, for refusal 20: by what the sheet says to the sequence, and what the unit shows and counts.
#![tactic(auto)]

ghost use Rattle.std.specs.Prelude.{◌≡◌};
ghost use Rattle.fitting.specs.Fitting.{fits_by};

use flow::Now;
use measured::Measured;
use sheet::Sheet;

// A refused sheet does not, nor a count above line 3.
#[tactic(auto, unfolding(units::specs::Numbers::pick, crate::specs::Fitting::fits_by))]
pub fn fits(m: Measured, sheet: Sheet, now: Now) -> bool
    ensures { result ≡ fits_by m sheet now }
{
    m.answer.is_ok()
        && now.count <= m.lengths.l03
        && fitness::stage_fits(m.lengths, sheet, now.stage)
}
