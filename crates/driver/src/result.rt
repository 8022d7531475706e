// What the unit hands back.
use crate::state::Unit;
use frame::FRAME_LENGTH;

// The unit that was made, and 0; or the empty unit, which is not valid, and 18.
//
// Here and below the number of the refusal stands beside the unit, and not a Result in place of
// both: 01 tells 0 or the number, and a unit comes back on a refusal too (`make_unit`,
// `press_button`, `hear_frame`; the claims `UnitRefusals` and `Validity` speak of both).
#[derive(Clone, Copy)]
pub struct Made {
    pub unit: Unit,
    pub refusal: u8,
}

// The unit afterwards; the number of the refusal, or 0; and the frame to be sent, if there is one.
#[derive(Clone, Copy)]
pub struct Pressed {
    pub unit: Unit,
    pub refusal: u8,
    pub frame: Option<[u8; FRAME_LENGTH]>,
}

// The unit afterwards, and the number of the refusal, or 0.
#[derive(Clone, Copy)]
pub struct Heard {
    pub unit: Unit,
    pub refusal: u8,
}
