// Calls for the board's C firmware, on numbers and byte slices: a frame written, a whole frame parsed, and the nearest allowed number. Each
// is the call of `wire` or `settings` with the answer packed in one integer (specs/Calls.antt), and takes anything.
#![tactic(auto)]

ghost use Rattle.std.specs.Prelude.{◌≡◌, ℕ, length};
ghost use Rattle.laws.specs.Promise.{Gives};
ghost use Rattle.firmware.specs.Calls.{refusal_packed, writing_packed, parsing_packed, nearing_packed};

use paper::Refusal;

// A refusal's number is in the high half of the integer, and an answer in the low half.
const HALF: u32 = 65536;

// A command is above the count of its data bytes.
const COMMAND: u32 = 256;

// Writes the frame of a command and its data to the front of `out`, and returns the frame's length. Refuses 11 under 75 bytes of room, then
// 12 for a command over 15 or over 35 data bytes; then nothing is written.
#[tactic(auto, unfolding(crate::specs::Calls::written_packed))]
pub fn reedsatchel_write_frame(command: u8, bytes: &[u8], out: &mut [u8]) -> u32
    ensures { Gives ℕ (writing_packed command bytes.now (length out.old)) out.old result out.new }
{
    match wire::write_frame(command, bytes, out) {
        Ok(len) => len as u32,
        Err(refusal) => refused(refusal),
    }
}

// Reads one whole frame, from its colon to its newline, puts its data at the front of `into`, and returns 256 times the command plus the
// count of data bytes. Refuses 11 under 35 bytes of room, then 2 for a slice that a colon and a newline do not enclose, then 1 to 4 for the
// characters between.
#[tactic(auto, unfolding(crate::specs::Calls::read_packed))]
pub fn reedsatchel_read_frame(frame: &[u8], into: &mut [u8]) -> u32
    ensures { Gives ℕ (parsing_packed frame.now (length into.old)) into.old result into.new }
{
    match wire::read_frame(frame, into) {
        Ok(read) => COMMAND * read.command as u32 + read.len as u32,
        Err(refusal) => refused(refusal),
    }
}

// Returns the nearest allowed number for a setting, given its partner's number (unused without a partner). Refuses 7 for an id that is no
// setting, then 12 for a partner's number outside its own range.
#[tactic(auto, unfolding(crate::specs::Calls::number_packed))]
pub fn reedsatchel_nearest(id: u16, wished: u16, partner: u16) -> u32
    ensures { result ≡ nearing_packed id wished partner }
{
    match settings::nearest(id, wished, partner) {
        Ok(number) => number as u32,
        Err(refusal) => refused(refusal),
    }
}

// Returns a refusal, with its number in the high half.
fn refused(refusal: Refusal) -> u32
    ensures { result ≡ refusal_packed refusal }
{
    HALF * refusal.number() as u32
}
