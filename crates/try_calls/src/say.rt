// Answers on standard output. Every word and every number begins with a blank.
use lines::Line;
use paper::Refusal;
use std::{fmt, io};

// Bytes as a row has them: a frame without its newline, hex pairs, or - for none.
#[derive(Clone, Copy)]
pub struct Word<'a>(pub &'a [u8]);

impl fmt::Display for Word<'_> {
    fn fmt<W: fmt::Write>(&self, f: &mut fmt::Formatter<W>) -> fmt::Result {
        match self.0 {
            [] => f.write_str("-"),
            [frame @ .., b'\n'] if is_frame(frame) => chars(f, frame),
            bytes => pairs(f, bytes),
        }
    }
}

// Writes characters as they are.
fn chars<W: fmt::Write>(f: &mut fmt::Formatter<W>, chars: &[u8]) -> fmt::Result {
    for char in chars {
        f.write_char(*char as char)?;
    }
    Ok(())
}

// Writes bytes as hex pairs.
fn pairs<W: fmt::Write>(f: &mut fmt::Formatter<W>, bytes: &[u8]) -> fmt::Result {
    for byte in bytes {
        write!(f, "{byte:02X}")?;
    }
    Ok(())
}

// Returns whether bytes are a colon and more, all with a shape of their own; a blank has none.
fn is_frame(bytes: &[u8]) -> bool {
    bytes.starts_with(b":") && bytes.iter().all(|byte| (b'!'..=b'~').contains(byte))
}

// Returns the front of what was lent to a call. How much a call says that it wrote is tested here, and not believed.
pub fn front(lent: &[u8], len: usize) -> &[u8] {
    &lent[..len.min(lent.len())]
}

// Writes bytes.
pub fn bytes(rt: &impl Print, bytes: &[u8]) -> io::Result<()> {
    print!(rt; " {}", Word(bytes))
}

// Writes frames that follow each other.
pub fn frames(rt: &impl Print, frames: &[u8]) -> io::Result<()> {
    for frame in frames.split_inclusive(|char| *char == b'\n') {
        bytes(rt, frame)?;
    }
    Ok(())
}

// Writes a backup text in quotes.
pub fn text(rt: &impl Print, text: &[u8]) -> io::Result<()> {
    print!(rt; " \"{}\"", text.escape_ascii())
}

// Writes a sentence of the box.
pub fn sentence(rt: &impl Print, line: Line) -> io::Result<()> {
    rt.print(" ")?;
    rt.write_all(line.text.as_slice())
}

// Writes a refusal.
pub fn refused(rt: &impl Print, refusal: Refusal) -> io::Result<()> {
    print!(rt; " refused {}", refusal.number())
}

// Writes whether a call accepted what it was given.
pub fn verdict(rt: &impl Print, verdict: Result<(), Refusal>) -> io::Result<()> {
    match verdict {
        Ok(()) => rt.print(" accepted"),
        Err(refusal) => refused(rt, refusal),
    }
}
