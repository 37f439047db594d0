// What the loader answers, by what it finds: whether the unit fits, what is wrong with the sheet offered, whether the unit rests, and the two issues.
#![tactic(auto)]

ghost use Rattle.std.specs.Prelude.{◌≡◌};
ghost use Rattle.loading.specs.Loading.{place_by, answer_by};

use answers::refuse_unless;
use sheet::{Answer, Refusal};

// 21, then 22.
#[tactic(auto, unfolding(sheet::specs::Refusals::or_else))]
pub fn place_answer(rests: bool, held: u32, offered: u32) -> Answer
    ensures { result ≡ place_by rests held offered }
{
    refuse_unless(rests, Refusal::LoadNotNow, 0)?;
    refuse_unless(held < offered, Refusal::IssueNotNewer, 0)
}

// 20, then the sheet's own, then 21 and 22.
#[tactic(auto, unfolding(sheet::specs::Refusals::or_else))]
pub fn load_answer(fits: bool, own: Answer, place: Answer) -> Answer
    ensures { result ≡ answer_by fits own place }
{
    refuse_unless(fits, Refusal::UnitUnfit, 0)?;
    own?;
    place
}
