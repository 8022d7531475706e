// A number of metres beside whole metres. 02, card 8: "All go by the number's exact value; minus zero
// is zero." Up to 2^24 whole metres are numbers of this format, and so are their halves: nothing is
// rounded here. A difference of two such numbers might be.
ghost use Rattle.std.specs.Prelude.{◌≡◌, true, ◌≤◌, ◌<◌};
ghost use Rattle.line.specs.Positions.{most_metres};
ghost use Rattle.place.specs.Metres.{from_zero, equals, is_below, within_line, nearer, FromTo};

use line::PostNo;

// From zero to the last post.
pub fn on_line(x: f32, last: u32) -> bool
    requires { last ≤ most_metres }
    ensures { result ≡ within_line last x }
{
    0.0 <= x && x <= last as f32
}

pub fn is_at(x: f32, metres: u32) -> bool
    requires { (from_zero x ≡ true) × (metres ≤ most_metres) }
    ensures { result ≡ equals x metres }
{
    x == metres as f32
}

pub fn is_below(x: f32, metres: u32) -> bool
    requires { (from_zero x ≡ true) × (metres ≤ most_metres) }
    ensures { result ≡ is_below x metres }
{
    x < metres as f32
}

// Of a post and the next one, with the number between their positions, the nearer; the lower at equal
// distance.
pub fn nearer(x: f32, post: PostNo, low: u32, high: u32) -> PostNo
    requires { (FromTo x low high) × (high ≤ most_metres) × (post.0 < 8) }
    ensures { result.0 ≡ nearer x post.0 low high }
{
    if x <= (low + high) as f32 * 0.5 {
        return post;
    }
    PostNo(post.0 + 1)
}
