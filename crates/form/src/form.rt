// Whether a line's numbers are in the ranges that a book gives them.
ghost use Rattle.std.specs.Prelude.{◌≡◌, ◌≤◌};
ghost use Rattle.line.specs.Line.{tracks_in_range, routes_on_line, well_formed};

use line::{Line, names_posts};

// Places for posts from `posts` on and trains from `trains` on are not read.
#[tactic(auto, unfolding(line::specs::Line::well_formed))]
pub fn well_formed(line: Line) -> bool
    ensures { result ≡ well_formed line }
{
    (2..=8).contains(&line.posts)
        && tracks_in_range(&line)
        && names_posts(line.posts, line.sidings)
        && (1..=6).contains(&line.trains)
        && routes_on_line(&line)
}

// Whether every post has 1 to 4 tracks.
pub fn tracks_in_range(line: &Line) -> bool
    requires { line.now.posts ≤ 8 }
    ensures { result ≡ tracks_in_range line.now }
{
    line.tracks[..line.posts as usize]
        .iter()
        .all(|tracks| (1..=4).contains(tracks))
}

// Whether every train starts and ends on the line. The trains are numbered and their routes not sliced.
pub fn routes_on_line(line: &Line) -> bool
    requires { line.now.trains ≤ 6 }
    ensures { result ≡ routes_on_line line.now }
{
    (0..line.trains as usize).all(|t| line.routes[t].start.0 < line.posts
        && line.routes[t].end.0 < line.posts)
}
