use crate::bytes::{SPACE, lent};
use crate::puts::{self, Put};
use crate::say;
use crate::words::{Answer, Words};
use requests::Wanted;
use restore::Size;
use std::io;

// Answers `list ROOM SETTING ..`: how many Sets, and their frames.
pub fn list(rt: &impl Print, mut words: Words) -> Answer {
    let room = words.number()?;
    let (from, to) = puts::tables_of(words.rest(Put::is)?);
    let mut space = [0u8; SPACE];
    let listed = restore::list(from, to, lent(&mut space, room));
    Some(match listed {
        Ok(list) => shown(rt, list, &space),
        Err(refusal) => say::refused(rt, refusal),
    })
}

// Writes how many Sets there are, and their frames at the front of what was lent.
fn shown(rt: &impl Print, list: Size, lent: &[u8]) -> io::Result<()> {
    print!(rt; " {}", list.sets)?;
    say::frames(rt, say::front(lent, list.len))
}

// Answers `due DONE SETTING ..`: the Set that is due after DONE of them.
pub fn due(rt: &impl Print, mut words: Words) -> Answer {
    let done = words.number()?;
    let (from, to) = puts::tables_of(words.rest(Put::is)?);
    Some(match restore::due_after(from, to, done) {
        Ok(Some(due)) => wanted(rt, due),
        Ok(None) => rt.print(" nothing"),
        Err(refusal) => say::refused(rt, refusal),
    })
}

// Writes a setting's id, and the number that is wanted for it.
pub fn wanted(rt: &impl Print, it: Wanted) -> io::Result<()> {
    print!(rt; " {:04X} {}", it.setting.id, it.number)
}
