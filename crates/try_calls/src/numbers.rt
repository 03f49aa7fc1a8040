// Numbers as a row has them: decimal, with a minus sign or without, and hex digits.
ghost use Rattle.std.specs.Prelude.{◌<◌, IfSome};

// How far below 0 a number may be.
const FARTHEST: usize = 0x7FFF_FFFF_FFFF_FFFF;

// Returns the value of a digit, as in a frame: `char::to_digit` would take lower case, and `wire::nibble_of` belongs to what the
// rows try.
fn digit(char: u8) -> Option<u8>
    ensures { IfSome result (λ d. d < 16) }
{
    match char {
        b'0'..=b'9' => Some(char - b'0'),
        b'A'..=b'F' => Some(char - b'A' + 10),
        _ => None,
    }
}

// Returns the byte of two hex digits.
pub fn pair(high: u8, low: u8) -> Option<u8> {
    Some(digit(high)? * 16 + digit(low)?)
}

// Returns an id of four hex digits.
pub fn id(word: &[u8]) -> Option<u16> {
    let [a, b, c, d] = word else {
        return None;
    };
    Some(u16::from_be_bytes([pair(*a, *b)?, pair(*c, *d)?]))
}

// Returns a decimal number without a sign: `parse` would take a plus.
fn amount(digits: &[u8]) -> Option<usize> {
    if digits.is_empty() {
        return None;
    }
    let mut n = 0usize;
    for char in digits {
        let d = digit(*char).filter(|d| *d < 10)?;
        n = n.checked_mul(10)?.checked_add(d as usize)?;
    }
    Some(n)
}

// Returns a decimal number; one with a minus sign in two's complement, so that one type holds a room, which may be 18446744073709551615, and
// a reading, which may be -1.
pub fn number(word: &[u8]) -> Option<usize> {
    let [b'-', digits @ ..] = word else {
        return amount(word);
    };
    let distance = amount(digits)?;
    (1..=FARTHEST)
        .contains(&distance)
        .then_some(distance.wrapping_neg())
}

// Returns the signed number that a number in two's complement is.
pub fn as_signed(number: usize) -> i64 {
    (number as u64).cast_signed()
}

// Returns the low byte of a number, for a command.
pub fn as_8(number: usize) -> u8 {
    (number % 0x100) as u8
}

// Returns the low two bytes of a number, for a setting.
pub fn as_16(number: usize) -> u16 {
    (number % 0x10000) as u16
}
