// Bytes put into a lent buffer.
ghost use Rattle.std.specs.Prelude.{◌≡◌, ◌+◌, leb, length};
ghost use Rattle.common.specs.Part.{replaced_if_room};

// Copies the bytes into `to` from place `at` on and answers true; where they do not fit, it answers
// false and leaves `to` alone.
#[tactic(auto, using(crate::proofs::Written::puts))]
pub fn put(bytes: &[u8], to: &mut [u8], at: usize) -> bool
    ensures value { result ≡ leb (at + length bytes.now) (length to.old) }
    ensures to_after { to.new ≡ replaced_if_room to.old at bytes.now }
{
    let fits = bytes.len() <= to.len() && at <= to.len() - bytes.len();
    if fits {
        to[at..at + bytes.len()].copy_from_slice(bytes);
    }
    fits
}
