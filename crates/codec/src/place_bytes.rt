// A place as three bytes: its sort, the number of the post or the section, and the nearest post.
ghost use Rattle.std.specs.Prelude.{◌≡◌, length};
ghost use Rattle.encoding.specs.PlaceBytes.{place_length, place_bytes};

use part::put;
use place::Place;

pub const PLACE_LENGTH: usize = 3;

// The sorts by the numbers that they have in C: the type `Place` of the code has its cases instead.
const NOTHING: u8 = 0;

const AT_POST: u8 = 1;

const IN_SECTION: u8 = 2;

// Writes the three bytes of a place.
pub fn put_place(place: Place, to: &mut [u8])
    requires { length to.old ≡ place_length }
    ensures { to.new ≡ place_bytes place }
{
    let bytes = sort_and_numbers(place);
    put(&bytes, to, 0);
}

fn sort_and_numbers(place: Place) -> [u8; PLACE_LENGTH]
    ensures { result ≡ place_bytes place }
{
    match place {
        Place::At(post) => [AT_POST, post.0, post.0],
        Place::In(section, nearest) => [IN_SECTION, section.0, nearest.0],
        Place::Nothing => [NOTHING, 0, 0],
    }
}
