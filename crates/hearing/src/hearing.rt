// Hearing a frame: refusals 1, 3, 4, 5, 6 and 22, in that order.
ghost use Rattle.std.specs.Prelude.{◌≡◌};
ghost use Rattle.frame.specs.declared.message.Message.TheVariants.{Fe, Afe};
ghost use Rattle.driver.specs.Hearing.{for_move, phase_after, phase_told, heard_by, hear_frame};

use driver::{Heard, Phase, Unit};
use frame::{Message, Move};
use line::Refusal;
use unit::{awaiting, in_phase, own_move, valid};

// What a frame of any bytes does.
#[tactic(auto, using(driver::proofs::Frames::strange, driver::proofs::Frames::heard_by_lem))]
pub fn hear(unit: Unit, frame: &[u8]) -> Heard
    ensures { result ≡ hear_frame unit frame.now }
{
    if !valid(unit) {
        return answered(unit, Err(Refusal::StrangeState as u8));
    }
    answered(unit, phase_after(unit, framing::read(frame)))
}

// The unit in the phase that it has then, or as it is with the number of the refusal.
fn answered(unit: Unit, phase: Result<Phase, u8>) -> Heard
    ensures { result ≡ heard_by unit phase }
{
    match phase {
        Ok(phase) => Heard {
            unit: in_phase(unit, phase),
            refusal: 0,
        },
        Err(refusal) => Heard { unit, refusal },
    }
}

// The phase of a valid unit after a message. 02, card 4: "Kinds 5, 6 and 7 are known now, and heard by
// a unit change nothing."
fn phase_after(unit: Unit, message: Message) -> Result<Phase, u8>
    ensures { result ≡ phase_told unit message }
{
    match message {
        Message::Fe(m) => phase_after_fe(unit, m),
        Message::Afe(m) => Ok(phase_after_afe(unit, m)),
        Message::La(_) | Message::Le(_) | Message::Lb(_) => Ok(unit.phase),
        Message::Fa(_) | Message::Am(_) => Err(Refusal::WrongEnd as u8),
        Message::Refused(n) => Err(n),
    }
}

// An FE for another train changes nothing.
#[tactic(auto, unfolding(driver::specs::Hearing::for_move, driver::specs::Hearing::phase_after))]
fn phase_after_fe(unit: Unit, m: Move) -> Result<Phase, u8>
    ensures { result ≡ phase_told unit (Fe m) }
{
    if m.train != unit.train {
        return Ok(unit.phase);
    }
    if for_move(unit, m) && awaiting(unit.phase) {
        Ok(Phase::Granted)
    } else {
        Err(Refusal::NotAwaited as u8)
    }
}

// Only an unanswered request is declined.
#[tactic(auto, unfolding(driver::specs::State::same_phase, driver::specs::Hearing::phase_after))]
fn phase_after_afe(unit: Unit, m: Move) -> Phase
    ensures { result ≡ phase_after unit (Afe m) }
{
    if for_move(unit, m) && unit.phase == Phase::Asked {
        Phase::Declined
    } else {
        unit.phase
    }
}

// Whether the move is the unit's own: its train, from its present to its next post.
#[tactic(auto, unfolding(driver::specs::Hearing::for_move))]
fn for_move(unit: Unit, m: Move) -> bool
    ensures { result ≡ for_move unit m }
{
    let own = own_move(unit);
    m.train == own.train && m.from == own.from && m.to == own.to
}
