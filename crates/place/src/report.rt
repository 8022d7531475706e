// What a place report says, and where it puts the unit.
ghost use Rattle.std.specs.Prelude.{◌≡◌};
ghost use Rattle.place.specs.Locating.{place_refusal};

use line::{PostNo, SectionNo};

// 02, card 8: "a place report is a post number, a number of metres, or missing".
#[derive(Clone, Copy)]
pub enum Report {
    Post(PostNo),
    Metres(f32),
    Missing,
}

// At a post, which is the nearest too; in a section, with the nearest post; or nowhere.
#[derive(Clone, Copy)]
pub enum Place {
    At(PostNo),
    In(SectionNo, PostNo),
    Nothing,
}

// The number that a report is refused by; 0 of one that is accepted.
pub fn place_refusal(place: Result<Place, u8>) -> u8
    ensures { result ≡ place_refusal place }
{
    match place {
        Ok(_) => 0,
        Err(number) => number,
    }
}
