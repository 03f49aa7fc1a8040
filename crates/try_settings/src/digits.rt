// All bytes as the data of a frame: its digits by the plain rule and its check by the plain sum, and the frame parsed again.
use std::io;
use wire::Frame;

// How many bytes there are.
const BYTES: usize = 256;

// The longest frame, and the most data.
const FRAME_ROOM: usize = 75;

const MOST_DATA: usize = 35;

// The sum that a Get, a byte and the check come to.
const SUM: u8 = 0x55;

const GET: u8 = 7;

// How long a frame of one data byte is: colon, command, two digits each for the byte and the check, newline.
const LEN: usize = 7;

const DIGITS: [u8; 16] = *b"0123456789ABCDEF";

// Prints the line for all bytes.
pub fn all(rt: &impl Print) -> io::Result<()> {
    let agree = (0..=u8::MAX)
        .filter(|byte| is_written(*byte) && is_read(*byte))
        .count();
    let differ = BYTES.abs_diff(agree);
    println!(rt; "bytes through a frame: that agree {agree}, that differ {differ}")
}

// Returns the two digits of a byte.
fn digits(byte: u8) -> [u8; 2] {
    [DIGITS[(byte / 16) as usize], DIGITS[(byte % 16) as usize]]
}

// Returns the frame of a byte by the plain rule.
fn frame_of(byte: u8) -> [u8; LEN] {
    let check = SUM.wrapping_sub(GET).wrapping_sub(byte);
    let [high, low] = digits(byte);
    let [check_high, check_low] = digits(check);
    [b':', b'7', high, low, check_high, check_low, b'\n']
}

// Returns whether `write_frame` writes that frame.
fn is_written(byte: u8) -> bool {
    let mut out = [0u8; FRAME_ROOM];
    wire::write_frame(GET, &[byte], &mut out) == Ok(LEN) && out.starts_with(&frame_of(byte))
}

// Returns whether `read_frame` gives that byte back.
fn is_read(byte: u8) -> bool {
    let due = Frame {
        command: GET,
        len: 1,
    };
    let mut into = [0u8; MOST_DATA];
    wire::read_frame(&frame_of(byte), &mut into) == Ok(due) && into[0] == byte
}
