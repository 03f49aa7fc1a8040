use crate::bytes::{self, Bytes, SPACE, lent};
use crate::puts::{self, Put};
use crate::words::{Answer, Words};
use crate::{numbers, say};
use backup::{Backup, BadText};
use std::{io, iter};
use tables::Table;

// A word that replaces a line of a text, the first being 1, by bytes. A line past the last one is what follows the text.
#[derive(Drop)]
struct Patch {
    line: usize,
    bytes: Bytes,
}

impl Patch {
    // Returns the line and the bytes of a word LINE=BYTES.
    fn of(word: &[u8]) -> Option<Patch> {
        let mut sides = word.splitn(2, |char| *char == b'=');
        let line = numbers::number(sides.next()?)?;
        let bytes = bytes::bytes(sides.next()?)?;
        Some(Patch { line, bytes })
    }
}

// Answers `text ROOM SETTING ..`: a table as text.
pub fn text(rt: &impl Print, mut words: Words) -> Answer {
    let room = words.number()?;
    let table = puts::table_of(words.rest(Put::is)?);
    let mut space = [0u8; SPACE];
    let written = backup::write(table, lent(&mut space, room));
    Some(match written {
        Ok(len) => say::text(rt, say::front(&space, len)),
        Err(refusal) => say::refused(rt, refusal),
    })
}

// Answers `parse LINE=BYTES ..`: the factory text parsed, with these bytes in place of these lines and their newlines.
pub fn parse(rt: &impl Print, words: Words) -> Answer {
    let patches = words.rest(|word| Patch::of(word).is_some())?;
    let mut text = factory_text()?;
    for patch in patches.filter_map(Patch::of) {
        text = patched(&text, &patch);
    }
    Some(judged(rt, backup::read(&text)))
}

// Returns the factory text.
fn factory_text() -> Option<Bytes> {
    let mut space = [0u8; SPACE];
    let len = backup::write(Table::factory(), &mut space).ok()?;
    Bytes::try_from(say::front(&space, len)).ok()
}

// Writes whether a text was accepted, and else the refusal and its line; then what is not the factory's in its table.
fn judged(rt: &impl Print, read: Backup) -> io::Result<()> {
    match read.verdict {
        Ok(()) => rt.print(" accepted")?,
        Err(BadText { refusal, line }) => {
            say::refused(rt, refusal)?;
            print!(rt; " line {line}")?;
        }
    }
    puts::differences(rt, read.table)
}

// Returns a text with bytes in place of a line, 0 being the first one too. What has no room is left out, byte
// by byte: `try_extend_from_slice` would leave out all of a part.
fn patched(text: &[u8], patch: &Patch) -> Bytes {
    let line = patch.line.max(1);
    let lines = text.split_inclusive(|char| *char == b'\n');
    let after = text.split_inclusive(|char| *char == b'\n').skip(line);
    let mut patched = Bytes::new();
    for part in lines
        .take(line - 1)
        .chain(iter::once(patch.bytes.as_slice()))
        .chain(after)
    {
        for byte in part {
            let _ = patched.try_push(*byte);
        }
    }
    patched
}
