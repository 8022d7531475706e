// For a cab that knows where it is: the place of a report.
ghost use Rattle.std.specs.Prelude.{◌≡◌};
ghost use Rattle.calls.specs.PlaceCalls.{place_call, known_report, known_place, locate_call};

use crate::word::word_of;
use codec::{PLACE_LENGTH, put_place};
use line::{PostNo, Refusal};
use place::{Place, Report, place_refusal};

// The place of a report: missing, a post or metres, by its kind. A report that is refused leaves
// `place` alone.
#[tactic(auto, using(calls::proofs::PlaceSteps::no_room))]
#[unsafe(no_mangle)]
pub extern "C" fn quangevit_locate(
    book: &[u8],
    kind: u8,
    post: u8,
    metres: f32,
    place: &mut [u8],
) -> u32
    ensures { place_call result place.new
        ≡ locate_call book.now kind post metres place.old }
{
    if place.len() != PLACE_LENGTH {
        return word_of(Refusal::StrangeState as u8, 0);
    }
    let answer = found(book, kind, post, metres);
    if let Ok(at) = answer {
        put_place(at, place);
    }
    word_of(place_refusal(answer), 0)
}

// The place of a report by its kind.
fn found(book: &[u8], kind: u8, post: u8, metres: f32) -> Result<Place, u8>
    ensures { result ≡ known_place book.now kind post metres }
{
    let report = report_of(kind, post, metres)?;
    locating::locate(book, report)
}

// The report of a kind.
#[tactic(auto, unfolding(calls::specs::PlaceCalls::report_of))]
fn report_of(kind: u8, post: u8, metres: f32) -> Result<Report, Refusal>
    ensures { result ≡ known_report kind post metres }
{
    match kind {
        0 => Ok(Report::Missing),
        1 => Ok(Report::Post(PostNo(post))),
        2 => Ok(Report::Metres(metres)),
        3..=255 => Err(Refusal::UnknownKind),
    }
}
