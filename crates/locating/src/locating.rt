// Where a report puts the unit. 02, card 8: "The answer for metres is the post if equal to its
// position, else the section, and also the nearest post, the lower at equal distance."
ghost use Rattle.std.specs.Prelude.{◌≡◌, true, ◌-◌};
ghost use Rattle.line.specs.Positions.{metres_at};
ghost use Rattle.place.specs.Metres.{within_line};
ghost use Rattle.place.specs.Locating.{Surveyed, last_reached, placed_at, on_survey, place_of};

use crate::metres::{is_at, is_below, nearer, on_line};
use line::{PostNo, Refusal, SectionNo};
use place::{Place, Report};

// The place of a report, by the positions of a book.
pub fn locate(book: &[u8], report: Report) -> Result<Place, u8>
    ensures { result ≡ place_of book.now report }
{
    let reading = book::read_positioned(book);
    reading.outcome?;
    on_survey(reading.line.posts, reading.positions, report)
}

// The same on a line of so many posts, whose positions were read.
fn on_survey(posts: u8, positions: [u32; 8], report: Report) -> Result<Place, u8>
    requires { Surveyed posts positions }
    ensures { result ≡ on_survey posts positions report }
{
    match report {
        Report::Post(post) => {
            if posts <= post.0 {
                return Err(Refusal::WrongPost as u8);
            }
            Ok(Place::At(post))
        }
        Report::Metres(x) => {
            if !on_line(x, positions[posts as usize - 1]) {
                return Err(Refusal::NoPlace as u8);
            }
            Ok(placed_at(x, posts, positions))
        }
        Report::Missing => Ok(Place::Nothing),
    }
}

// At the last post that the number has reached, or in the section past it.
fn placed_at(x: f32, posts: u8, positions: [u32; 8]) -> Place
    requires { (Surveyed posts positions) × (within_line (metres_at positions (posts - 1)) x ≡ true) }
    ensures { result ≡ placed_at posts positions x }
{
    let p = reached(x, posts, positions);
    let i = p as usize;
    if is_at(x, positions[i]) {
        return Place::At(PostNo(p));
    }
    let near = nearer(x, PostNo(p), positions[i], positions[i + 1]);
    Place::In(SectionNo(p), near)
}

// The last post that is not past the number.
fn reached(x: f32, posts: u8, positions: [u32; 8]) -> u8
    requires { (Surveyed posts positions) × (within_line (metres_at positions (posts - 1)) x ≡ true) }
    ensures { result ≡ last_reached positions x (posts - 1) }
{
    for p in (1..posts).rev() {
        if !is_below(x, positions[p as usize]) {
            return p;
        }
    }
    0
}
