// What a follower or a collector is told.
use crate::bytes::{self, Bytes, SPACE};
use crate::say;

// A frame's command and data, a frame that is refused, or that no answer came.
#[derive(Drop)]
pub enum Event {
    Frame { command: u8, data: Bytes },
    Refused,
    Silence,
}

impl Event {
    // Returns the event of a word.
    pub fn of(word: &[u8]) -> Option<Event> {
        if word == b"silence".as_slice() {
            return Some(Event::Silence);
        }
        let frame = bytes::bytes(word)?;
        let mut space = [0u8; SPACE];
        match wire::read_frame(&frame, &mut space) {
            Ok(read) => Some(Event::Frame {
                command: read.command,
                data: Bytes::try_from(say::front(&space, read.len)).ok()?,
            }),
            Err(_) => Some(Event::Refused),
        }
    }

    // Returns whether a word is an event.
    pub fn is(word: &[u8]) -> bool {
        Event::of(word).is_some()
    }
}
