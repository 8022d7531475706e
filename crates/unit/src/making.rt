// Making a unit: refusal 18.
ghost use Rattle.std.specs.Prelude.{◌≡◌};
ghost use Rattle.driver.specs.Making.{standing_unit, make_unit};

use crate::state::numbers_fit;
use driver::{Made, Phase, Unit};
use line::{PostNo, Refusal, Route, TrainNo};

// A unit for a train and its route, Standing at its start, and 0; or the empty unit, which is not
// valid, and 18.
#[tactic(auto, using(driver::proofs::Numbers::makes, driver::proofs::Numbers::makes_none))]
pub fn make(train: TrainNo, start: PostNo, end: PostNo) -> Made
    ensures { result ≡ make_unit train.0 start.0 end.0 }
{
    if !numbers_fit(train, start, end) {
        return Made {
            unit: standing(TrainNo(255), PostNo(0), PostNo(0)),
            refusal: Refusal::OffTheLine as u8,
        };
    }
    Made {
        unit: standing(train, start, end),
        refusal: 0,
    }
}

fn standing(train: TrainNo, start: PostNo, end: PostNo) -> Unit
    ensures { result ≡ standing_unit train.0 start.0 end.0 }
{
    Unit {
        train,
        route: Route { start, end },
        at: start,
        phase: Phase::Standing,
    }
}
