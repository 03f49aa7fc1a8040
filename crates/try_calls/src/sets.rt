use crate::puts::{self, Put};
use crate::words::{Answer, Words};
use crate::{numbers, say};
use std::io;
use tables::{Change, Denied};

// Answers `nearest ID WISHED PARTNER`: the nearest allowed number.
pub fn nearest(rt: &impl Print, mut words: Words) -> Answer {
    let id = words.id()?;
    let wished = numbers::as_16(words.number()?);
    let partner = numbers::as_16(words.number()?);
    words.end()?;
    Some(match settings::nearest(id, wished, partner) {
        Ok(number) => print!(rt; " {number}"),
        Err(refusal) => say::refused(rt, refusal),
    })
}

// Answers `change PLACE NUMBER SETTING ..`: a Set of a table, and what is not the factory's in the table after it.
pub fn change(rt: &impl Print, mut words: Words) -> Answer {
    let place = words.number()?;
    let number = numbers::as_16(words.number()?);
    let table = puts::table_of(words.rest(Put::is)?);
    Some(changed(rt, table.set(place, number)))
}

// Writes what a Set returns.
fn changed(rt: &impl Print, change: Change) -> io::Result<()> {
    match change.answer {
        Ok(()) => rt.print(" accepted")?,
        Err(Denied { refusal, nearest }) => {
            say::refused(rt, refusal)?;
            print!(rt; " nearest {nearest}")?;
        }
    }
    puts::differences(rt, change.table)
}
