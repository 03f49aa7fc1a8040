// Hex digits of frames and rows, made here and read one by one. Document 01, Frames: "`0`-`9`, `A`-`F` only."
ghost use Rattle.std.specs.Prelude.{◌+◌, ◌*◌, ◌<◌, ◌≡◌};
ghost use Rattle.wire.specs.Digits.{digit, nibble, is_digit};

use spans::Kind;

const TEN: u8 = 10;

// Returns the digit of a nibble.
#[tactic(auto, unfolding(crate::specs::Digits::digit))]
pub(crate) fn digit_of(n: u8) -> u8
    requires { n < 16 }
    ensures { result ≡ digit n }
{
    if n < TEN { b'0' + n } else { b'A' - TEN + n }
}

// The digits, among all characters. The test has no branch, so that the compiler may look at many characters at a time.
#[derive(Clone, Copy)]
pub(crate) struct Digit;

impl Kind for Digit {
    ghost holds = { λ _ c. is_digit c };

    #[tactic(auto, using(crate::proofs::Nibbles::digit_test))]
    fn holds(self, c: u8) -> bool {
        ((b'0' <= c) & (c <= b'9')) | ((b'A' <= c) & (c <= b'F'))
    }
}

// Returns the nibble of a digit. The low four bits count from 0 for a decimal digit and from 1 for a letter, and letters alone are 64 or
// more. The sum has no branch, so the processor has none to predict.
#[tactic(auto, using(crate::proofs::Nibbles::nibble_bits))]
pub(crate) fn nibble_of(c: u8) -> u8
    requires { nibble c < 16 }
    ensures { result ≡ nibble c }
{
    c % 16 + 9 * (c / 64)
}

// Returns the byte of two digits. They have been tested, many at a time; the one of rows tests its two, and is none where one is no digit.
pub(crate) fn byte_of(high: u8, low: u8) -> u8
    requires { (nibble high < 16) × (nibble low < 16) }
    ensures { result ≡ nibble high * 16 + nibble low }
{
    nibble_of(high) * 16 + nibble_of(low)
}
