// For planners: the running time between two posts.
ghost use Rattle.std.specs.Prelude.{◌≡◌};
ghost use Rattle.calls.specs.PlanningCalls.{time_call, running_time_call};

use crate::word::word_of;
use codec::{TIME_LENGTH, put_time};
use line::{PostNo, Refusal};

// The running time from one post of a book to another, at a speed in km/h. A question that is refused
// leaves `time` alone.
#[tactic(auto, using(calls::proofs::PlanningSteps::no_room))]
#[unsafe(no_mangle)]
pub extern "C" fn quangevit_running_time(
    book: &[u8],
    from: u8,
    to: u8,
    speed: u32,
    time: &mut [u8],
) -> u32
    ensures { time_call result time.new
        ≡ running_time_call book.now from to speed time.old }
{
    if time.len() != TIME_LENGTH {
        return word_of(Refusal::StrangeState as u8, 0);
    }
    match timing::running_time(book, PostNo(from), PostNo(to), speed) {
        Ok(answer) => {
            put_time(answer, time);
            word_of(0, 0)
        }
        Err(number) => word_of(number, 0),
    }
}
