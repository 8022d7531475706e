// 01: "Numbers of several bytes have the high byte first."
ghost use Rattle.std.specs.Prelude.{◌≡◌};
ghost use Rattle.common.specs.Word as words;

// The number of two bytes.
pub fn word(high: u8, low: u8) -> u16
    ensures { result ≡ words.word high low }
{
    u16::from_be_bytes([high, low])
}

// The number of four bytes.
pub fn long_word(a: u8, b: u8, c: u8, d: u8) -> u32
    ensures { result ≡ words.long_word a b c d }
{
    u32::from_be_bytes([a, b, c, d])
}

// The four bytes of a number.
pub fn long_word_bytes(n: u32) -> [u8; 4]
    ensures { result ≡ words.long_word_bytes n }
{
    n.to_be_bytes()
}
