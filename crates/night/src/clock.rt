// The clock: how long this box has been up, which nobody sets. It is read as text.
use ports::{Port, System};
use std::io;
use std::io::{Error, ErrorKind};

// How much of the text is read: the seconds and their hundredths, a blank, and more that is not needed.
const ROOM: usize = 32;

// A number of hundredths has at most twelve digits.
const MOST: u64 = 1000000000000;

// Returns the digits before the first blank as a number, which are hundredths of a second: two follow the point. `str::parse` would want
// the point taken out first, and a text that fits a number.
fn hundredths(text: &[u8]) -> u64 {
    let mut number = 0;
    for c in text {
        match c {
            b' ' => break,
            b'0'..=b'9' => number = number % MOST * 10 + u64::from(c - b'0'),
            _ => {}
        }
    }
    number
}

// Returns the time in milliseconds; none where there is no clock, which it says, and none at 0, where it does not run.
pub(crate) fn time(system: System) -> Option<u64> {
    match read(system) {
        Ok(0) => None,
        Ok(time) => Some(time),
        Err(error) => {
            ports::fail(system, b"no clock: /proc/uptime", error);
            None
        }
    }
}

// Returns the time that the clock gives. A read that fails is told as one that gives nothing.
fn read(system: System) -> io::Result<u64> {
    let clock = Port::Device(ports::open_read(system, b"/proc/uptime")?);
    let mut text = [0; ROOM];
    match ports::count(ports::read(&clock, &mut text).ok(), &text) {
        0 => Err(Error::from(ErrorKind::UnexpectedEof)),
        len => Ok(hundredths(&text[..len]) % MOST * 10),
    }
}
