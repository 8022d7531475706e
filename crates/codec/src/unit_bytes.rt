// A unit as five bytes: train, start, end, present post, phase.
ghost use Rattle.std.specs.Prelude.{◌≡◌, length};
ghost use Rattle.encoding.specs.UnitBytes.{unit_length, phase_of, button_of, encodes_unit, unit_in, unit_bytes};

use driver::{Button, Phase, Unit};
use line::{PostNo, Route, TrainNo};
use part::put;

pub const UNIT_LENGTH: usize = 5;

// The number of the last phase, Arrived: a byte from C can have any number.
const LAST_PHASE: u8 = 5;

// Whether the bytes encode a unit.
#[tactic(auto, unfolding(encoding::specs::UnitBytes::encodes_unit))]
pub fn encodes_unit(bytes: &[u8]) -> bool
    ensures { result ≡ encodes_unit bytes.now }
{
    bytes.len() == UNIT_LENGTH && bytes[4] <= LAST_PHASE
}

// The unit that they encode.
pub fn unit_in(bytes: &[u8]) -> Unit
    requires { length bytes.now ≡ unit_length }
    ensures { result ≡ unit_in bytes.now }
{
    Unit {
        train: TrainNo(bytes[0]),
        route: Route {
            start: PostNo(bytes[1]),
            end: PostNo(bytes[2]),
        },
        at: PostNo(bytes[3]),
        phase: phase_of(bytes[4]),
    }
}

// The phase of a number. It is no TryFrom<u8> of Phase, nor `button_of` one of Button: both enums are
// declared in `driver`, and what their bytes are is said in `encoding`, which rests on it.
#[tactic(auto, unfolding(encoding::specs::UnitBytes::phase_of))]
fn phase_of(number: u8) -> Phase
    ensures { result ≡ phase_of number }
{
    match number {
        0 => Phase::Standing,
        1 => Phase::Asked,
        2 => Phase::Declined,
        3 => Phase::Granted,
        4 => Phase::UnderWay,
        5..=255 => Phase::Arrived,
    }
}

// The button of a number.
#[tactic(auto, unfolding(encoding::specs::UnitBytes::button_of))]
pub fn button_of(number: u8) -> Button
    ensures { result ≡ button_of number }
{
    match number {
        0 => Button::Ask,
        1 => Button::Depart,
        2 => Button::Reached,
        3 => Button::Report,
        4..=255 => Button::Again,
    }
}

// Writes the five bytes of a unit.
pub fn put_unit(unit: Unit, to: &mut [u8])
    requires { length to.old ≡ unit_length }
    ensures { to.new ≡ unit_bytes unit }
{
    put(&bytes_of(unit), to, 0);
}

#[tactic(auto, unfolding(encoding::specs::UnitBytes::unit_bytes))]
fn bytes_of(unit: Unit) -> [u8; UNIT_LENGTH]
    ensures { result ≡ unit_bytes unit }
{
    [
        unit.train.0,
        unit.route.start.0,
        unit.route.end.0,
        unit.at.0,
        unit.phase as u8,
    ]
}
