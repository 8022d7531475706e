// The first `length` bytes have come; a buffer with its length, since fixed memory has no `Vec`.
#[derive(Clone, Copy)]
pub struct Bytes<const N: usize> {
    pub bytes: [u8; N],
    pub length: usize,
}

impl<const N: usize> Bytes<N> {
    ghost use Rattle.std.specs.Prelude.{◌≡◌, [], take};
    ghost use Rattle.bounded.specs.Bytes.{bytes_from, bytes_with};

    pub fn empty() -> Self
        ensures { result ≡ bytes_from N [] }
    {
        Bytes {
            bytes: [0; N],
            length: 0,
        }
    }

    // One more byte; where there is no room, all stays as it is.
    #[tactic(auto, unfolding(crate::specs::Bytes::bytes_with))]
    pub fn with_byte(mut self, byte: u8) -> Self
        ensures { result ≡ bytes_with N self.entry byte }
    {
        if self.length < N {
            self.bytes[self.length] = byte;
            self.length += 1;
        }
        self
    }

    // Those that have come.
    pub fn as_slice(&self) -> &[u8]
        ensures { result.now ≡ take self.now.length self.now.bytes }
    {
        &self.bytes[..self.length.min(N)]
    }
}
