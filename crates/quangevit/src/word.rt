// What every entry point answers: the number of a refusal, or 0, in the low byte, and the number of
// frames written in the next.
ghost use Rattle.std.specs.Prelude.{◌≡◌};
ghost use Rattle.calls.specs.Word.{word_of};

pub fn word_of(refusal: u8, sent: u8) -> u32
    ensures { result ≡ word_of refusal sent }
{
    refusal as u32 + 256 * (sent as u32)
}
