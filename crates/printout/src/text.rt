// A text by value. What does not fit any more is left out; all that is printed fits.
ghost use Rattle.std.specs.Prelude.{◌≡◌};
ghost use Rattle.printout.specs.Text.{followed};
ghost use Rattle.printout.specs.Lines.{decimal};

use bounded::Bytes;

// The longest line of a record, and the longest end line.
const RECORD_LINE_LENGTH: usize = 24;

const END_LINE_LENGTH: usize = 29;

// The longest text: 255 lines of records and the end line.
pub const TEXT_LENGTH: usize = 255 * RECORD_LINE_LENGTH + END_LINE_LENGTH;

// A number of 64 bits has at most twenty digits.
const MOST_DIGITS: usize = 20;

pub type Text = Bytes<TEXT_LENGTH>;

// The text with a word after it.
pub fn with_word(text: Text, word: &[u8]) -> Text
    ensures { result ≡ followed text word.now }
{
    word.iter()
        .fold(text, |longer, &byte| longer.with_byte(byte))
}

// The text with a number after it, in decimal.
pub fn with_number(text: Text, n: u64) -> Text
    ensures { result ≡ followed text (decimal n) }
{
    let mut digits = [0u8; MOST_DIGITS];
    let mut rest = n;
    for first in (0..MOST_DIGITS).rev() {
        digits[first] = b'0' + (rest % 10) as u8;
        rest /= 10;
        if rest == 0 {
            return with_word(text, &digits[first..]);
        }
    }
    with_word(text, &digits)
}
