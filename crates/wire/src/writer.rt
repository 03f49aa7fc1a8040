ghost use Rattle.std.specs.Prelude.{◌+◌, ◌*◌, ◌≤◌, ◌<◌, ◌%◌, ◌≡◌, [], ◌∷◌, length};
ghost use Rattle.std.proofs.lemmas.List.Edits.{sets};
ghost use Rattle.laws.specs.Lists.{sum_of};
ghost use Rattle.laws.specs.Promise.{overlaid};
ghost use Rattle.wire.specs.Frame.{frame, check, digits_of};

use crate::{Pair, digits, pair_of};

// Returns the sum of some bytes, modulo 256. A fold would have the same start and the same `wrapping_add`, with a closure around it.
pub(crate) fn sum_of(bytes: &[u8]) -> u8
    ensures { result ≡ sum_of bytes.now % 256 }
{
    let mut sum: u8 = 0;
    for b in bytes {
        sum = sum.wrapping_add(*b);
    }
    sum
}

// Returns the check byte that brings command and data to the total.
#[tactic(auto, unfolding(crate::specs::Frame::check))]
fn check_of(command: u8, bytes: &[u8]) -> u8
    ensures { result ≡ check command bytes.now }
{
    paper::FRAME_TOTAL
        .wrapping_sub(command)
        .wrapping_sub(sum_of(bytes))
}

// Puts a byte's two digits at a place.
fn put_byte(out: &mut [u8], at: usize, byte: u8)
    requires { at + 1 < length out.old }
    ensures { out.new ≡ sets out.old at (digits_of (byte ∷ [])) }
{
    let Pair { high, low } = pair_of(byte);
    out[at] = high;
    out[at + 1] = low;
}

// Puts the digits of some bytes from a place on. They go by place, as the check byte does, for which there is the same `put_byte`.
fn put_bytes(out: &mut [u8], at: usize, bytes: &[u8])
    requires { at + 2 * length bytes.now ≤ length out.old }
    ensures { out.new ≡ sets out.old at (digits_of bytes.now) }
{
    for (i, byte) in bytes.iter().enumerate() {
        put_byte(out, at + 2 * i, *byte);
    }
}

// Puts the whole frame at the buffer's front, and returns its length.
pub(crate) fn put_frame(command: u8, bytes: &[u8], out: &mut [u8]) -> usize
    requires { (command < 16) × (length bytes.now ≤ 35) × (75 ≤ length out.old) }
    ensures { (result ≡ length (frame command bytes.now)) × (out.new ≡ overlaid (frame command bytes.now) out.old) }
{
    let end = 2 + 2 * bytes.len();
    out[0] = paper::COLON;
    out[1] = digits::digit_of(command);
    put_bytes(out, 2, bytes);
    put_byte(out, end, check_of(command, bytes));
    out[end + 2] = paper::NEWLINE;
    end + 3
}
