// Frames of document 01, for both ends of the serial line: a frame written, and a whole frame parsed. Every call takes anything, and its
// promise fixes its answer and every lent byte (specs/Calls.antt).
#![tactic(auto)]

ghost use Rattle.laws.specs.Lists.{every};
ghost use Rattle.laws.specs.Promise.{Gives};
ghost use Rattle.wire.specs.Digits.{is_digit};
ghost use Rattle.wire.specs.Answers.{Written, Read};
ghost use Rattle.wire.specs.Calls.{pair_of, nibble_of, writing, parsing, parsing_chars};
ghost use Rattle.std.specs.Prelude.{◌≡◌, length};

use digits::Digit;
use paper::Refusal;
use spans::Kind;

mod digits;
mod reader;
mod writer;

// A byte as two digits.
#[derive(Clone, Copy, PartialEq, Eq)]
pub struct Pair {
    pub high: u8,
    pub low: u8,
}

// What a whole frame says beside its data: its command, and how many data bytes it has. Document 01: the data fill the front of the lent
// buffer, so only their number is said here.
#[derive(Clone, Copy, PartialEq, Eq)]
pub struct Frame {
    pub command: u8,
    pub len: usize,
}

// Returns both digits of a byte, the high nibble first.
pub fn pair_of(byte: u8) -> Pair
    ensures { result ≡ pair_of byte }
{
    Pair {
        high: digits::digit_of(byte / 16),
        low: digits::digit_of(byte % 16),
    }
}

// Returns the nibble of a digit, and none for any other character. No `then_some`: it would ask for the nibble before the test, and
// `digits::nibble_of` requires a digit.
pub fn nibble_of(c: u8) -> Option<u8>
    ensures { result ≡ nibble_of c }
{
    if Digit.holds(c) {
        Some(digits::nibble_of(c))
    } else {
        None
    }
}

// Returns whether every character is a digit.
pub fn all_digits(chars: &[u8]) -> bool
    ensures { result ≡ every is_digit chars.now }
{
    spans::all(chars, Digit)
}

// Writes the frame of a command and its data to the front of `out`, and returns its length. Refuses 11 under 75 bytes of room, then 12 for a
// command over 15 or over 35 data bytes; then nothing is written.
#[tactic(auto, unfolding(crate::specs::Calls::writing, laws::specs::Promise::overlaid))]
pub fn write_frame(command: u8, bytes: &[u8], out: &mut [u8]) -> Result<usize, Refusal>
    ensures { Gives Written (writing command bytes.now (length out.old)) out.old result out.new }
{
    if out.len() < paper::FRAME_ROOM {
        return Err(Refusal::ShortBuffer);
    }
    if paper::MOST_NIBBLE < command || paper::MOST_DATA < bytes.len() {
        return Err(Refusal::NotAllowed);
    }
    Ok(writer::put_frame(command, bytes, out))
}

// Reads one whole frame, from its colon to its newline, and puts its data at the front of `into`. Refuses 11 under 35 bytes of room, then 2
// for a slice that a colon and a newline do not enclose, then 1 to 4 for the characters between.
#[tactic(auto, unfolding(crate::specs::Calls::parsing, crate::specs::Calls::parsing_chars, crate::specs::Calls::whole_says, laws::specs::Promise::overlaid))]
pub fn read_frame(frame: &[u8], into: &mut [u8]) -> Result<Frame, Refusal>
    ensures { Gives Read (parsing frame.now (length into.old)) into.old result into.new }
{
    if into.len() < paper::MOST_DATA {
        return Err(Refusal::ShortBuffer);
    }
    match frame {
        [first, chars @ .., last] if *first == paper::COLON && *last == paper::NEWLINE => {
            read_chars(chars, into)
        }
        _ => Err(Refusal::NoDigit),
    }
}

// Reads the characters between a frame's colon and its newline, without those two, and puts the data at the front of `into`. Refuses 11
// under 35 bytes of room, then 1 to 4 for the characters.
#[tactic(auto, unfolding(crate::specs::Calls::parsing_chars, crate::specs::Parsing::body_says, laws::specs::Promise::overlaid))]
pub fn read_chars(chars: &[u8], into: &mut [u8]) -> Result<Frame, Refusal>
    ensures { Gives Read (parsing_chars chars.now (length into.old)) into.old result into.new }
{
    if into.len() < paper::MOST_DATA {
        return Err(Refusal::ShortBuffer);
    }
    if paper::MOST_CHARS < chars.len() {
        return Err(Refusal::TooLong);
    }
    if !all_digits(chars) {
        return Err(Refusal::NoDigit);
    }
    if reader::bad_count(chars.len()) {
        return Err(Refusal::BadCount);
    }
    reader::read_digits(chars, into)
}
