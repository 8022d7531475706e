// Whether a state that is handed in is valid (01: sound), the unit's own move and its last one, and
// its phases.
ghost use Rattle.std.specs.Prelude.{◌≡◌};
ghost use Rattle.driver.specs.State.{numbers_fit, awaiting, own_move, last_move, in_phase, valid_unit};

use driver::{Phase, Unit};
use frame::Move;
use line::{PostNo, TrainNo};

// 01: "A unit state is sound if train and posts are in range, the present post lies between start
// and end, and only Standing may be at the end."
#[tactic(auto, unfolding(driver::specs::State::valid_unit, driver::specs::State::same_phase))]
pub fn valid(unit: Unit) -> bool
    ensures { result ≡ valid_unit unit }
{
    numbers_fit(unit.train, unit.route.start, unit.route.end)
        && line::between(unit.route.start, unit.at, unit.route.end)
        && (unit.at != unit.route.end || unit.phase == Phase::Standing)
}

// Trains 0 to 5, posts 0 to 7.
#[tactic(auto, unfolding(driver::specs::State::numbers_fit))]
pub(crate) fn numbers_fit(train: TrainNo, start: PostNo, end: PostNo) -> bool
    ensures { result ≡ numbers_fit train.0 start.0 end.0 }
{
    train.0 <= 5 && start.0 <= 7 && end.0 <= 7
}

// Whether the unit has asked and has no authority yet.
pub fn awaiting(phase: Phase) -> bool
    ensures { result ≡ awaiting phase }
{
    matches!(phase, Phase::Asked | Phase::Declined)
}

// The move of the unit's train from its present to its next post.
pub fn own_move(unit: Unit) -> Move
    ensures { result ≡ own_move unit }
{
    Move {
        train: unit.train,
        from: unit.at,
        to: line::next_post(unit.at, unit.route.end),
    }
}

// The move of the unit's train that led to its present post, where that is past the start: from
// the post before it, the next one on the way back to the start.
pub fn last_move(unit: Unit) -> Move
    ensures { result ≡ last_move unit }
{
    Move {
        train: unit.train,
        from: line::next_post(unit.at, unit.route.start),
        to: unit.at,
    }
}

pub fn in_phase(unit: Unit, phase: Phase) -> Unit
    ensures { result ≡ in_phase unit phase }
{
    Unit { phase, ..unit }
}
