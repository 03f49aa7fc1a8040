use crate::bytes::{self, SPACE, lent};
use crate::pieces::hand_on;
use crate::words::{Answer, Words};
use crate::{frames, numbers, say};
use listen::{Listener, Told};
use std::io;

// Answers `listen BEGUN ASKED ROOM TIME EVENT ..`: a trailer begun and a request sent at these times; then reads and requests, each with
// its time before it.
pub fn listen(rt: &impl Print, mut words: Words) -> Answer {
    let begun = words.number()?;
    let asked = words.number()?;
    let room = words.number()?;
    let events = words.rest(is_event)?;
    let listener = Listener::start(begun as u64).asked(asked as u64);
    Some(listens(rt, listener, events, room))
}

// Returns whether a word is a time, a read or a request.
fn is_event(word: &[u8]) -> bool {
    numbers::number(word).is_some() || bytes::is_bytes(word) || is_request(word)
}

// Returns whether a word says that a request was sent, in place of a read.
fn is_request(word: &[u8]) -> bool {
    word == b"asked".as_slice()
}

// Hands a listener requests and reads, at the times in the words before them: two words a turn, so no for. A word in a time's place that is
// none is 0, and one in a read's place that is no bytes is skipped: `is_event` takes a row's words in any order, and what is printed of a row
// may not change.
fn listens(rt: &impl Print, listener: Listener, events: Words, room: usize) -> io::Result<()> {
    let mut listener = listener;
    let mut events = events;
    while let Some(time) = events.next() {
        let time = numbers::number(time).unwrap_or(0) as u64;
        let Some(event) = events.next() else {
            return Ok(());
        };
        if is_request(event) {
            listener = listener.asked(time);
        } else if let Some(read) = bytes::bytes(event) {
            listener = reads(rt, listener, &read, time, room)?;
        }
    }
    Ok(())
}

// Hands a listener a read, and writes of each call how many bytes it took, and what it tells.
fn reads(
    rt: &impl Print,
    listener: Listener,
    read: &[u8],
    time: u64,
    room: usize,
) -> io::Result<Listener> {
    let mut listener = listener;
    hand_on(read, |left| {
        let mut space = [0u8; SPACE];
        let listened = listener.read(left, time, lent(&mut space, room));
        listener = listened.listener;
        print!(rt; " {}", listened.taken)?;
        tells(rt, listened.told, &space)?;
        rt.print(";")?;
        Ok(listened.taken)
    })?;
    Ok(listener)
}

// Writes what a call tells.
fn tells(rt: &impl Print, told: Told, lent: &[u8]) -> io::Result<()> {
    match told {
        Told::Nothing => rt.print(" nothing"),
        Told::Frame(frame) => {
            rt.print(" frame")?;
            frames::shown(rt, frame, lent)
        }
        Told::Broken(refusal) => print!(rt; " broken {}", refusal.number()),
        Told::NoAnswer => rt.print(" no-answer"),
        Told::Refused(refusal) => say::refused(rt, refusal),
    }
}
