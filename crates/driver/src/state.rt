// What the unit keeps. It goes in by value and comes back by value.
use line::{PostNo, Route, TrainNo};

// Where the unit is in the course of one move.
#[derive(Clone, Copy, PartialEq, Eq)]
pub enum Phase {
    // At a post, with nothing asked.
    Standing,
    // FA sent.
    Asked,
    // AFE heard: the request stays, and its FE may still come.
    Declined,
    // FE heard.
    Granted,
    // Between the two posts.
    UnderWay,
    // At the next post, with the arrival not reported yet.
    Arrived,
}

// What the driver can press.
#[derive(Clone, Copy, PartialEq, Eq)]
pub enum Button {
    Ask,
    Depart,
    Reached,
    Report,
    // The FA or the AM once more.
    Again,
}

// `at` is the present post: it moves with the report of an arrival, not with the arrival.
#[derive(Clone, Copy)]
pub struct Unit {
    pub train: TrainNo,
    pub route: Route,
    pub at: PostNo,
    pub phase: Phase,
}
