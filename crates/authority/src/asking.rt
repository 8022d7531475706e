// The Asked trains in the order of their requests, which their numbers in the journal tell.
ghost use Rattle.std.specs.Prelude.{◌≡◌, ◌≤◌};
ghost use Rattle.authority.specs.Asking.{elder, lower, NextAsked};

use line::TrainNo;
use rules::{State, Status};

// An Asked train, and the number of its request.
#[derive(Clone, Copy)]
pub struct Asker {
    pub train: TrainNo,
    pub number: u8,
}

// The Asked train whose request has the lowest number from `from` on.
#[tactic(auto, using(crate::proofs::Askers::next_none))]
pub fn next_asked(state: State, from: u8) -> Option<Asker>
    requires { state.trains ≤ 6 }
    ensures { NextAsked state from state.trains result }
{
    let mut best = None;
    for t in 0..state.trains {
        best = elder(best, TrainNo(t), state.fleet[t as usize].status, from);
    }
    best
}

// The best so far, or train `t`, if its request has a lower number that is not below `from`.
fn elder(best: Option<Asker>, t: TrainNo, status: Status, from: u8) -> Option<Asker>
    ensures { result ≡ elder best t status from }
{
    match status {
        Status::Asked(n) if from <= n => lower(t, n, best),
        _ => best,
    }
}

fn lower(train: TrainNo, number: u8, best: Option<Asker>) -> Option<Asker>
    ensures { result ≡ lower train number best }
{
    match best {
        Some(other) if other.number <= number => best,
        _ => Some(Asker { train, number }),
    }
}
