// The forms that bytes have in a row: hex pairs, a frame, characters in quotes, or - for none.
ghost use Rattle.std.specs.Prelude.{◌<◌, length, IfSome};

use crate::numbers;
use arrayvec::ArrayVec;

// The most bytes of a word, and the most that is lent to a call.
pub const SPACE: usize = 640;

// The bytes of a word.
pub type Bytes = ArrayVec<u8, SPACE>;

// Returns the front of a space, to be lent to a call with this much room; all of it where it has less.
pub fn lent(space: &mut [u8; SPACE], room: usize) -> &mut [u8] {
    let room = room.min(SPACE);
    &mut space[..room]
}

// Returns the bytes of a word, or none for another word.
pub fn bytes(word: &[u8]) -> Option<Bytes> {
    match word {
        [] => None,
        [b'-'] => Some(Bytes::new()),
        [b':', ..] => with_newline(word),
        [b'"', quoted @ .., b'"'] => unquoted(quoted),
        pairs => unpaired(pairs),
    }
}

// Returns whether a word is bytes.
pub fn is_bytes(word: &[u8]) -> bool {
    bytes(word).is_some()
}

// Returns the characters of a frame and a newline after them.
fn with_newline(chars: &[u8]) -> Option<Bytes> {
    let mut frame = Bytes::new();
    frame.try_extend_from_slice(chars).ok()?;
    frame.try_push(b'\n').ok()?;
    Some(frame)
}

// Returns the bytes of hex pairs.
fn unpaired(pairs: &[u8]) -> Option<Bytes> {
    let mut bytes = Bytes::new();
    for pair in pairs.chunks(2) {
        let [high, low] = pair else {
            return None;
        };
        bytes.try_push(numbers::pair(*high, *low)?).ok()?;
    }
    Some(bytes)
}

// Returns the bytes of characters in quotes. A while and no for, since a byte takes one, two or four of them.
fn unquoted(quoted: &[u8]) -> Option<Bytes> {
    let mut bytes = Bytes::new();
    let mut left = quoted;
    while !left.is_empty() {
        let (byte, rest) = unescaped(left)?;
        bytes.try_push(byte).ok()?;
        left = rest;
    }
    Some(bytes)
}

// Returns the byte that characters in quotes begin with, and the characters after it.
fn unescaped(quoted: &[u8]) -> Option<(u8, &[u8])>
    ensures { IfSome result (λ r. length r.1.now < length quoted.now) }
{
    match quoted {
        [b'\\', b'n', rest @ ..] => Some((b'\n', rest)),
        [b'\\', b'r', rest @ ..] => Some((b'\r', rest)),
        [b'\\', b't', rest @ ..] => Some((b'\t', rest)),
        [b'\\', b'\\', rest @ ..] => Some((b'\\', rest)),
        [b'\\', b'x', high, low, rest @ ..] => Some((numbers::pair(*high, *low)?, rest)),
        [b'\\', ..] | [] => None,
        [char, rest @ ..] => Some((*char, rest)),
    }
}
