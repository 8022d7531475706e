// A running time as eight bytes: seconds, then the rest, four bytes each.
ghost use Rattle.std.specs.Prelude.{◌≡◌, length};
ghost use Rattle.encoding.specs.TimeBytes.{time_length, time_bytes};

use line::word::long_word_bytes;
use part::put;
use timing::Time;

pub const TIME_LENGTH: usize = 8;

// Writes the eight bytes of a time.
pub fn put_time(time: Time, to: &mut [u8])
    requires { length to.old ≡ time_length }
    ensures { to.new ≡ time_bytes time }
{
    let bytes = seconds_and_rest(time);
    put(&bytes, to, 0);
}

fn seconds_and_rest(time: Time) -> [u8; TIME_LENGTH]
    ensures { result ≡ time_bytes time }
{
    let s = long_word_bytes(time.seconds);
    let r = long_word_bytes(time.rest);
    [s[0], s[1], s[2], s[3], r[0], r[1], r[2], r[3]]
}
