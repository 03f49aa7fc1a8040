// The calls of `firmware` as an archive for C: each is the call of its name there, and promises the same.
#![tactic(auto)]

ghost use Rattle.std.specs.Prelude.{◌≡◌, ℕ, length};
ghost use Rattle.laws.specs.Promise.{Gives};
ghost use Rattle.firmware.specs.Calls.{writing_packed, parsing_packed, nearing_packed};

// Writes the frame of a command and its data to the front of `out`, and returns the frame's length. Refuses 11 under 75 bytes of room, then
// 12 for a command over 15 or over 35 data bytes; then nothing is written.
#[unsafe(no_mangle)]
pub extern "C" fn reedsatchel_write_frame(command: u8, bytes: &[u8], out: &mut [u8]) -> u32
    ensures { Gives ℕ (writing_packed command bytes.now (length out.old)) out.old result out.new }
{
    firmware::reedsatchel_write_frame(command, bytes, out)
}

// Reads one whole frame, from its colon to its newline, puts its data at the front of `into`, and returns 256 times the command plus the
// count of data bytes. Refuses 11 under 35 bytes of room, then 2 for a slice that a colon and a newline do not enclose, then 1 to 4 for the
// characters between.
#[unsafe(no_mangle)]
pub extern "C" fn reedsatchel_read_frame(frame: &[u8], into: &mut [u8]) -> u32
    ensures { Gives ℕ (parsing_packed frame.now (length into.old)) into.old result into.new }
{
    firmware::reedsatchel_read_frame(frame, into)
}

// Returns the nearest allowed number for a setting, given its partner's number (unused without a partner). Refuses 7 for an id that is no
// setting, then 12 for a partner's number outside its own range.
#[unsafe(no_mangle)]
pub extern "C" fn reedsatchel_nearest(id: u16, wished: u16, partner: u16) -> u32
    ensures { result ≡ nearing_packed id wished partner }
{
    firmware::reedsatchel_nearest(id, wished, partner)
}
