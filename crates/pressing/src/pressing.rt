// Pressing a button: refusals 1, 21 and 8, in that order.
ghost use Rattle.std.specs.Prelude.{◌≡◌};
ghost use Rattle.driver.specs.Pressing.{moved_on, last_sent, carried_out, silent, sending, seven_bytes, press_button};

use crate::permitting::permitted;
use driver::{Button, Phase, Pressed, Unit};
use frame::{FRAME_LENGTH, Message};
use unit::{awaiting, in_phase, last_move, own_move};

// What a press of a button does.
#[tactic(auto, unfolding(driver::specs::Pressing::press_button, common::specs::Check::unless_refused))]
pub fn press(unit: Unit, button: Button) -> Pressed
    ensures { result ≡ press_button unit button }
{
    match permitted(unit, button) {
        Ok(()) => carried_out(unit, button),
        Err(refusal) => silent(unit, refusal as u8),
    }
}

// What a press does that is permitted.
#[tactic(auto, unfolding(driver::specs::Pressing::carried_out))]
fn carried_out(unit: Unit, button: Button) -> Pressed
    ensures { result ≡ carried_out unit button }
{
    match button {
        Button::Ask => sending(in_phase(unit, Phase::Asked), Message::Fa(own_move(unit))),
        Button::Depart => silent(in_phase(unit, Phase::UnderWay), 0),
        Button::Reached => silent(in_phase(unit, Phase::Arrived), 0),
        Button::Report => sending(moved_on(unit), Message::Am(own_move(unit))),
        Button::Again => sending(unit, last_sent(unit)),
    }
}

// What Again gives: the FA for the unit's own move, or the AM of its last one.
fn last_sent(unit: Unit) -> Message
    ensures { result ≡ last_sent unit }
{
    if awaiting(unit.phase) {
        Message::Fa(own_move(unit))
    } else {
        Message::Am(last_move(unit))
    }
}

// Standing at the next post.
fn moved_on(unit: Unit) -> Unit
    ensures { result ≡ moved_on unit }
{
    Unit {
        at: line::next_post(unit.at, unit.route.end),
        phase: Phase::Standing,
        ..unit
    }
}

fn silent(unit: Unit, refusal: u8) -> Pressed
    ensures { result ≡ silent unit refusal }
{
    Pressed {
        unit,
        refusal,
        frame: None,
    }
}

fn sending(unit: Unit, message: Message) -> Pressed
    ensures { result ≡ sending unit message }
{
    Pressed {
        unit,
        refusal: 0,
        frame: Some(framing::write(message)),
    }
}

// 01: "FA and AM are handed back as seven bytes within the answer", all 0 where none is given.
pub fn seven_bytes(answer: Pressed) -> [u8; FRAME_LENGTH]
    ensures { result ≡ seven_bytes answer.frame }
{
    answer.frame.unwrap_or([0; FRAME_LENGTH])
}
