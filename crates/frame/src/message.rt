// What a frame says.
use line::{PostNo, TrainNo};

// One train's move from a post to the next; of a gang's message, the two posts of its section.
#[derive(Clone, Copy)]
pub struct Move {
    pub train: TrainNo,
    pub from: PostNo,
    pub to: PostNo,
}

// 01: "A frame reads as one of four messages or as a refusal." 02, card 4, has three more.
#[derive(Clone, Copy)]
pub enum Message {
    // Fahranfrage: the driver asks for a move.
    Fa(Move),
    // Fahrerlaubnis: the dispatcher's authority for it.
    Fe(Move),
    // Ablehnung der Fahrerlaubnis: the authority is declined for now.
    Afe(Move),
    // Ankunftmeldung: the driver reports the arrival.
    Am(Move),
    // A gang asks for the section between two posts, to run in it under its own responsibility.
    La(Move),
    // The section is given to the gang.
    Le(Move),
    // The gang gives the section back.
    Lb(Move),
    // No message: the number of the refusal.
    Refused(u8),
}
