// One tick of the unit, and the loader.
ghost use Rattle.std.specs.Prelude.{◌≡◌};
ghost use Rattle.unit.specs.Unit.{now_of, holding, replied, tick_of, load_answer, load_of};

use super::{Reply, Unit};
use flow::{Now, Ticked};
use sheet::{Answer, Refusal, Refused, Sheet};
use stage::Command;

fn holding(sheet: Sheet, now: Now) -> Unit
    ensures { result ≡ holding sheet now }
{
    let Now { stage, count } = now;
    Unit {
        sheet,
        stage,
        count,
    }
}

fn replied(sheet: Sheet, ticked: Ticked) -> Reply
    ensures { result ≡ replied sheet ticked }
{
    Reply {
        unit: holding(sheet, ticked.now),
        answer: answers::refuse_unless(ticked.allowed, Refusal::CommandNotAllowed, 0),
    }
}

impl Unit {
    fn now(self) -> Now
        ensures { result ≡ now_of self }
    {
        Now {
            stage: self.stage,
            count: self.count,
        }
    }

    // One tenth of a second, with the command and the call of it.
    #[tactic(auto, unfolding(units::specs::Numbers::pick, crate::specs::Unit::tick_of))]
    pub fn tick(self, command: Command, call: bool) -> Reply
        ensures { result ≡ tick_of self command call }
    {
        let sheet = self.sheet;
        let m = measured::measure(sheet);
        let now = self.now();
        if fitting::fits(m, sheet, now) {
            replied(sheet, steady::tick(m.lengths, sheet, now, command, call))
        } else {
            Reply {
                unit: self, // unchanged
                answer: Err(Refused {
                    refusal: Refusal::UnitUnfit,
                    line: 0,
                }),
            }
        }
    }

    #[tactic(auto, unfolding(crate::specs::Unit::load_answer, crate::specs::Unit::place_answer))]
    fn load_answer(self, sheet: Sheet) -> Answer
        ensures { result ≡ load_answer self sheet }
    {
        let held = self.sheet;
        let fits = fitting::fits(measured::measure(held), held, self.now());
        let own = measured::measure(sheet).answer;
        let rests = normal::resting(self.stage, self.count);
        let place = loading::place_answer(rests, held.issue, sheet.issue);
        loading::load_answer(fits, own, place)
    }

    // The loader.
    pub fn load(self, sheet: Sheet) -> Reply
        ensures { result ≡ load_of self sheet }
    {
        super::restarted(self.load_answer(sheet), sheet, self)
    }
}
