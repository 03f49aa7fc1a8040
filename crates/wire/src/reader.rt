// What document 01, "Frames", asks of a frame's characters, and the data that they carry.
ghost use Rattle.std.specs.Prelude.{◌+◌, ◌*◌, ◌≤◌, ◌<◌, ◌%◌, ◌/◌, ◌-◌, ◌≡◌, true, false, length, take};
ghost use Rattle.laws.specs.Lists.{every};
ghost use Rattle.laws.specs.Promise.{Gives};
ghost use Rattle.wire.specs.Digits.{is_digit};
ghost use Rattle.wire.specs.Parsing.{body_says, bad_count, payload_of};
ghost use Rattle.wire.specs.Calls.{read_as};
ghost use Rattle.wire.specs.Answers.{Read};

use crate::{Frame, digits, writer};
use paper::Refusal;

// The data bytes and the check byte.
const MOST_PAYLOAD: usize = 36;

// Returns whether this many characters are no frame: under 3, or an even count.
pub(crate) fn bad_count(n: usize) -> bool
    ensures { result ≡ bad_count n }
{
    n < 3 || n % 2 == 0
}

// Returns the bytes after the command, the check byte last, at the front of an array that has room for them all. They are half as many as
// the characters, which the caller counts; a `Few` would hold the count a second time. Chunks of two would name the two places all the
// same.
fn payload_of(chars: &[u8]) -> [u8; MOST_PAYLOAD]
    requires { (length chars.now ≤ 73) × (every is_digit chars.now ≡ true) × (bad_count (length chars.now) ≡ false) }
    ensures { (length result ≡ 36) × (take (length (payload_of chars.now)) result ≡ payload_of chars.now) }
{
    let mut payload = [0u8; MOST_PAYLOAD];
    for i in 0..chars.len() / 2 {
        payload[i] = digits::byte_of(chars[2 * i + 1], chars[2 * i + 2]);
    }
    payload
}

// Reads an odd number of digits, and puts their data at the front of `into`. Refuses 4 where the sum is wrong; then nothing is written. The
// room is said here and `into` is no array, since the clause tells what becomes of all of the lent buffer.
pub(crate) fn read_digits(chars: &[u8], into: &mut [u8]) -> Result<Frame, Refusal>
    requires { (length chars.now ≤ 73) × (every is_digit chars.now ≡ true) × (bad_count (length chars.now) ≡ false) × (35 ≤ length into.old) }
    ensures { Gives Read (read_as (body_says chars.now)) into.old result into.new }
{
    let n = chars.len() / 2;
    let payload = payload_of(chars);
    let command = digits::nibble_of(chars[0]);
    if command.wrapping_add(writer::sum_of(&payload[..n])) != paper::FRAME_TOTAL {
        return Err(Refusal::BadSum);
    }
    let len = spans::copy(&payload[..n - 1], into);
    Ok(Frame { command, len })
}
