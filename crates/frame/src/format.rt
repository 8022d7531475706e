// The numbers of a frame.

// 01: "Seven bytes".
pub const FRAME_LENGTH: usize = 7;

// 01: "kind 1 FA, 2 FE, 3 AFE, 4 AM".
pub const FA: u8 = 1;

pub const FE: u8 = 2;

pub const AFE: u8 = 3;

pub const AM: u8 = 4;

// 02, card 4: "kind 5 (LA, ask), 6 (LE, given) and 7 (LB, back)".
pub const LA: u8 = 5;

pub const LE: u8 = 6;

pub const LB: u8 = 7;
