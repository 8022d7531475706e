// The driver's end: a unit is made, a button pressed, a frame heard.
ghost use Rattle.std.specs.Prelude.{◌≡◌, cond, ◌≤◌, length};
ghost use Rattle.common.specs.Below.{of_bool};
ghost use Rattle.common.specs.Check.{refusal};
ghost use Rattle.common.specs.Part.{replaced};
ghost use Rattle.line.specs.Refusal.{checked};
ghost use Rattle.driver.specs.Pressing.{is_sent, sent_bytes};
ghost use Rattle.calls.specs.UnitCalls.{unit_call, make_unit_call, hear_call, pressed, press_call_checks};
ghost use Rattle.calls.specs.UnitCalls.{press_call};

use crate::word::word_of;
use codec::{UNIT_LENGTH, button_of, encodes_unit, put_unit, unit_in};
use frame::FRAME_LENGTH;
use line::{PostNo, Refusal, TrainNo};

// The number of the last button, Again: C can hand in any number.
const LAST_BUTTON: u8 = 4;

// Makes a unit for a train and its route.
#[unsafe(no_mangle)]
#[tactic(auto, unfolding(calls::specs::UnitCalls::make_unit_call))]
pub extern "C" fn quangevit_make_unit(train: u8, start: u8, end: u8, unit: &mut [u8]) -> u32
    ensures { unit_call result unit.new ≡ make_unit_call train start end unit.old }
{
    if unit.len() != UNIT_LENGTH {
        return word_of(Refusal::StrangeState as u8, 0);
    }
    let made = unit::make(TrainNo(train), PostNo(start), PostNo(end));
    put_unit(made.unit, unit);
    word_of(made.refusal, 0)
}

// Presses a button. The frame that a press gives is at the beginning of `frame`.
#[unsafe(no_mangle)]
#[tactic(auto, unfolding(calls::specs::UnitCalls::press_call, common::specs::Check::unless_refused))]
pub extern "C" fn quangevit_press(unit: &mut [u8], button: u8, frame: &mut [u8]) -> u32
    ensures { pressed result unit.new frame.new ≡ press_call unit.old button frame.old }
{
    if let Err(refusal) = press_refusal(unit, button, frame.len()) {
        return word_of(refusal as u8, 0);
    }
    let after = pressing::press(unit_in(unit), button_of(button));
    put_unit(after.unit, unit);
    let sent = send(after.frame, frame);
    word_of(after.refusal, sent)
}

// Whether a press is refused before the unit itself is asked.
#[tactic(auto, using(encoding::proofs::Units::encoded_length), unfolding(common::specs::Check::refusal))]
fn press_refusal(unit: &[u8], button: u8, room: usize) -> Result<(), Refusal>
    ensures { checked result ≡ refusal (press_call_checks unit.now button room) }
{
    if !encodes_unit(unit) || !unit::valid(unit_in(unit)) {
        return Err(Refusal::StrangeState);
    }
    if room < FRAME_LENGTH {
        return Err(Refusal::ShortStore);
    }
    if LAST_BUTTON < button {
        return Err(Refusal::NotNow);
    }
    Ok(())
}

// Writes the frame, if one is to be sent, and answers how many are sent.
#[tactic(auto, using(common::proofs::Part::replaced_if))]
fn send(sent: Option<[u8; FRAME_LENGTH]>, frame: &mut [u8]) -> u8
    requires { 7 ≤ length frame.old }
    ensures value { result ≡ of_bool (is_sent sent) }
    ensures frame_after { frame.new ≡ cond (is_sent sent) (replaced frame.old 0 (sent_bytes sent)) frame.old }
{
    let Some(bytes) = sent else {
        return 0;
    };
    framing::place(bytes, frame, 0);
    1
}

// Hears a frame.
#[unsafe(no_mangle)]
#[tactic(auto, using(encoding::proofs::Units::encoded_length), unfolding(calls::specs::UnitCalls::hear_call))]
pub extern "C" fn quangevit_hear(unit: &mut [u8], frame: &[u8]) -> u32
    ensures { unit_call result unit.new ≡ hear_call unit.old frame.now }
{
    if !encodes_unit(unit) {
        return word_of(Refusal::StrangeState as u8, 0);
    }
    let heard = hearing::hear(unit_in(unit), frame);
    put_unit(heard.unit, unit);
    word_of(heard.refusal, 0)
}
