// When a button may be pressed.
ghost use Rattle.std.specs.Prelude.{◌≡◌};
ghost use Rattle.common.specs.Check.{refusal};
ghost use Rattle.line.specs.Refusal.{checked};
ghost use Rattle.driver.specs.Pressing.{may_repeat, may_press, end_permits, press_checks};

use driver::{Button, Phase, Unit};
use line::Refusal;
use unit::{awaiting, valid};

// Whether the button may be pressed: refusals 1, 21 and 8, in that order.
#[tactic(auto, unfolding(common::specs::Check::refusal))]
pub(crate) fn permitted(unit: Unit, button: Button) -> Result<(), Refusal>
    ensures { checked result ≡ refusal (press_checks unit button) }
{
    if !valid(unit) {
        return Err(Refusal::StrangeState);
    }
    if !may_press(unit, button) {
        return Err(Refusal::NotNow);
    }
    if !end_permits(unit, button) {
        return Err(Refusal::AtItsEnd);
    }
    Ok(())
}

// Whether the unit is in the state for this button: else 21.
#[tactic(auto, unfolding(driver::specs::State::same_phase))]
fn may_press(unit: Unit, button: Button) -> bool
    ensures { result ≡ may_press unit button }
{
    match button {
        Button::Ask => unit.phase == Phase::Standing,
        Button::Depart => unit.phase == Phase::Granted,
        Button::Reached => unit.phase == Phase::UnderWay,
        Button::Report => unit.phase == Phase::Arrived,
        Button::Again => may_repeat(unit),
    }
}

// 02, card 6: Again "gives the FA in Asked or Declined, the AM of the last move in Standing past the
// start, and else 21".
#[tactic(auto, unfolding(driver::specs::State::same_phase))]
fn may_repeat(unit: Unit) -> bool
    ensures { result ≡ may_repeat unit }
{
    awaiting(unit.phase) || (unit.phase == Phase::Standing && unit.at != unit.route.start)
}

// Whether there is the next post that a button of a move needs: else 8. Again needs none.
fn end_permits(unit: Unit, button: Button) -> bool
    ensures { result ≡ end_permits unit button }
{
    button == Button::Again || unit.at != unit.route.end
}
