// A train's way along the line, from its start to its end.
ghost use Rattle.std.specs.Prelude.{◌≡◌, ◌&&◌, leb};
ghost use Rattle.line.specs.Route.{next_post, section_of, distance, between};

use crate::sorts::{PostNo, SectionNo};

#[derive(Clone, Copy)]
pub struct Route {
    pub start: PostNo,
    pub end: PostNo,
}

// The route of a train that a line does not have.
pub const NO_ROUTE: Route = Route {
    start: PostNo(0),
    end: PostNo(0),
};

// The post after `at` on the way to `end`; `end` itself at the end.
#[tactic(auto, unfolding(crate::specs::Route::next_post))]
pub fn next_post(at: PostNo, end: PostNo) -> PostNo
    ensures { result.0 ≡ next_post at.0 end.0 }
{
    if at < end {
        PostNo(at.0 + 1)
    } else if end < at {
        PostNo(at.0 - 1)
    } else {
        at
    }
}

// The section between two neighbouring posts has the lower one's number.
pub fn section(p: PostNo, q: PostNo) -> SectionNo
    ensures { result.0 ≡ section_of p.0 q.0 }
{
    SectionNo(p.min(q).0)
}

// How many posts lie from `a` to `b`, `a` not counted.
pub fn distance(a: PostNo, b: PostNo) -> u8
    ensures { result ≡ distance a.0 b.0 }
{
    a.0.abs_diff(b.0)
}

// Whether `at` lies between two posts, both counted.
#[tactic(auto, using(crate::proofs::Travel::between_up, crate::proofs::Travel::between_down))]
pub fn between(start: PostNo, at: PostNo, end: PostNo) -> bool
    ensures { result ≡ between start.0 at.0 end.0 }
{
    in_order(start, at, end) || in_order(end, at, start)
}

fn in_order(a: PostNo, b: PostNo, c: PostNo) -> bool
    ensures { result ≡ leb a.0 b.0 && leb b.0 c.0 }
{
    a <= b && b <= c
}
