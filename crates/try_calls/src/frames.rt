use crate::bytes::{SPACE, lent};
use crate::words::{Answer, Words};
use crate::{numbers, say};
use paper::Refusal;
use std::io;
use wire::Frame;

// Answers `read ROOM FRAME`: a whole frame parsed.
pub fn read(rt: &impl Print, mut words: Words) -> Answer {
    let room = words.number()?;
    let frame = words.bytes()?;
    words.end()?;
    let mut space = [0u8; SPACE];
    let read = wire::read_frame(&frame, lent(&mut space, room));
    Some(match read {
        Ok(frame) => shown(rt, frame, &space),
        Err(refusal) => say::refused(rt, refusal),
    })
}

// Writes a frame's command, and its data at the front of what was lent.
pub fn shown(rt: &impl Print, frame: Frame, lent: &[u8]) -> io::Result<()> {
    print!(rt; " {}", frame.command)?;
    say::bytes(rt, say::front(lent, frame.len))
}

// Answers `write ROOM COMMAND DATA`: a frame written.
pub fn write(rt: &impl Print, mut words: Words) -> Answer {
    let room = words.number()?;
    let command = numbers::as_8(words.number()?);
    let data = words.bytes()?;
    words.end()?;
    let mut space = [0u8; SPACE];
    let written = wire::write_frame(command, &data, lent(&mut space, room));
    Some(told(rt, written, &space))
}

// Answers `get ROOM ID`: a Get written.
pub fn get(rt: &impl Print, mut words: Words) -> Answer {
    let room = words.number()?;
    let id = words.id()?;
    words.end()?;
    let mut space = [0u8; SPACE];
    let written = requests::get(id, lent(&mut space, room));
    Some(told(rt, written, &space))
}

// Answers `set ROOM PLACE NUMBER`: a Set written.
pub fn set(rt: &impl Print, mut words: Words) -> Answer {
    let room = words.number()?;
    let place = words.number()?;
    let number = numbers::as_16(words.number()?);
    words.end()?;
    let mut space = [0u8; SPACE];
    let written = requests::set(place, number, lent(&mut space, room));
    Some(told(rt, written, &space))
}

// Writes what a writer answers: the frame at the front of what was lent, or the refusal.
fn told(rt: &impl Print, written: Result<usize, Refusal>, lent: &[u8]) -> io::Result<()> {
    match written {
        Ok(len) => say::bytes(rt, say::front(lent, len)),
        Err(refusal) => say::refused(rt, refusal),
    }
}
