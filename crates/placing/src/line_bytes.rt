// A line as 23 bytes.
ghost use Rattle.std.specs.Prelude.{◌≡◌, length};
ghost use Rattle.encoding.specs.LineBytes.{line_length, route_ends, line_bytes};

use crate::head_bytes::put_head;
use encoding::{HEAD_LENGTH, ROUTE_LENGTH};
use line::{Line, Route};
use part::put;

// Writes the 23 bytes of a line.
pub fn put_line(line: &Line, to: &mut [u8])
    requires { length to.old ≡ line_length }
    ensures { to.new ≡ line_bytes line.now }
{
    put_head(line.posts, &line.tracks, line.sidings, line.trains, to);
    for (t, route) in line.routes.iter().enumerate() {
        put(&route_ends(*route), to, HEAD_LENGTH + ROUTE_LENGTH * t);
    }
}

fn route_ends(route: Route) -> [u8; ROUTE_LENGTH]
    ensures { result ≡ route_ends route }
{
    [route.start.0, route.end.0]
}
