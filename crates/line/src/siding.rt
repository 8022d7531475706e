// Sidings: a set of posts, in which the bit of value 2^i is that of post i.
ghost use Rattle.std.specs.Prelude.{◌≡◌, ◌≤◌};
ghost use Rattle.line.specs.Line.{names_posts};
ghost use Rattle.line.specs.Holding.{is_stabled};

use crate::sorts::PostNo;

// Whether a set of posts has only those of a line of so many.
pub fn names_posts(posts: u8, set: u8) -> bool
    requires { posts ≤ 8 }
    ensures { result ≡ names_posts posts set }
{
    (set as u32) < 1u32 << posts
}

// Whether a train that stands at post `at` is stabled: `at` is its end, and one of the posts with a
// siding. A number past the eight posts has no bit in the set. That there are no sidings at all is
// asked first: in a loop over trains it is asked once.
#[tactic(auto, using(crate::proofs::Holding::past_the_posts))]
pub fn stabled(sidings: u8, end: PostNo, at: PostNo) -> bool
    ensures { result ≡ is_stabled sidings end.0 at.0 }
{
    sidings != 0 && at == end && at.0 < 8 && (sidings >> at.0) % 2 == 1
}
