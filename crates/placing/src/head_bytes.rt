// The first eleven bytes of a line and of a state: posts, tracks of posts 0 to 7, sidings, trains.
ghost use Rattle.std.specs.Prelude.{◌≡◌, ◌≤◌, length};
ghost use Rattle.common.specs.Part.{replaced};
ghost use Rattle.encoding.specs.Parts.{head_bytes, head_length};

use encoding::{POSTS_AT, SIDINGS_AT, TRACKS_AT, TRAINS_AT};
use part::put;

// Writes them to the beginning of `to`.
pub fn put_head(posts: u8, tracks: &[u8; 8], sidings: u8, trains: u8, to: &mut [u8])
    requires { head_length ≤ length to.old }
    ensures { to.new ≡ replaced to.old 0 (head_bytes posts tracks.now sidings trains) }
{
    to[POSTS_AT] = posts;
    put(tracks, to, TRACKS_AT);
    to[SIDINGS_AT] = sidings;
    to[TRAINS_AT] = trains;
}
