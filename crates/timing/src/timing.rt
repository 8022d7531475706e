// 02, card 5: "For two posts L metres apart and a speed of v km/h the answer is whole seconds q and the
// rest r, where 18 × L = 5 × v × q + r and r is below 5 × v."
ghost use Rattle.std.specs.Prelude.{◌≡◌, ◌≤◌};
ghost use Rattle.line.specs.Positions.{most_metres};
ghost use Rattle.timing.specs.Timing.{most_speed, timed, running_time};

use line::{PostNo, Refusal};

// The rest is in eighteenths of a metre, 5 x v of which are run in a second.
#[derive(Clone, Copy)]
pub struct Time {
    pub seconds: u32,
    pub rest: u32,
}

const MOST_SPEED: u32 = 160;

// The running time from one post of a book to another, at a speed in km/h.
pub fn running_time(book: &[u8], from: PostNo, to: PostNo, speed: u32) -> Result<Time, u8>
    ensures { result ≡ running_time book.now from.0 to.0 speed }
{
    let reading = book::read_positioned(book);
    reading.outcome?;
    let posts = reading.line.posts;
    if posts <= from.0 || posts <= to.0 {
        return Err(Refusal::WrongPost as u8);
    }
    if speed < 1 || MOST_SPEED < speed {
        return Err(Refusal::Speed as u8);
    }
    let start = reading.positions[from.0 as usize];
    let end = reading.positions[to.0 as usize];
    Ok(timed(start.abs_diff(end), speed))
}

// So many metres at that speed.
fn timed(metres: u32, speed: u32) -> Time
    requires { (metres ≤ most_metres) × (1 ≤ speed) × (speed ≤ most_speed) }
    ensures { result ≡ timed metres speed }
{
    let way = 18 * metres;
    let pace = 5 * speed;
    Time {
        seconds: way / pace,
        rest: way % pace,
    }
}
