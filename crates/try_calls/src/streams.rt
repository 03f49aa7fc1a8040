use crate::bytes::{self, SPACE, lent};
use crate::pieces::hand_on;
use crate::words::{Answer, Words};
use crate::{frames, say};
use paper::Refusal;
use spans::Few;
use std::io;
use stream::Held;
use wire::Frame;

// Answers `hear ROOM PIECE ..`: pieces from outside a frame.
pub fn hear(rt: &impl Print, mut words: Words) -> Answer {
    let room = words.number()?;
    let pieces = words.rest(bytes::is_bytes)?;
    Some(hears(rt, Held::outside(), pieces, room))
}

// Answers `hold LEN CHARACTERS ROOM PIECE ..`: pieces from a state inside a frame, which bytes could have left or not.
pub fn hold(rt: &impl Print, mut words: Words) -> Answer {
    let len = words.number()?;
    let given = words.bytes()?;
    let room = words.number()?;
    let pieces = words.rest(bytes::is_bytes)?;
    let mut chars = Few::of(&given);
    chars.len = len;
    let held = Held {
        inside: true,
        chars,
    };
    Some(hears(rt, held, pieces, room))
}

// Reads pieces, and writes of each call how many bytes it took, and what happened.
fn hears(rt: &impl Print, held: Held, pieces: Words, room: usize) -> io::Result<()> {
    let mut held = held;
    for piece in pieces.filter_map(bytes::bytes) {
        hand_on(&piece, |left| {
            let mut space = [0u8; SPACE];
            let heard = held.hear(left, lent(&mut space, room));
            held = heard.held;
            print!(rt; " {}", heard.taken)?;
            happened(rt, heard.event, &space)?;
            rt.print(";")?;
            Ok(heard.taken)
        })?;
    }
    Ok(())
}

// Writes what happened in a call.
fn happened(rt: &impl Print, event: Result<Option<Frame>, Refusal>, lent: &[u8]) -> io::Result<()> {
    match event {
        Ok(None) => rt.print(" nothing"),
        Ok(Some(frame)) => {
            rt.print(" frame")?;
            frames::shown(rt, frame, lent)
        }
        Err(refusal) => say::refused(rt, refusal),
    }
}
