// Numbers that a row puts in for ids, and its tables: the factory table with these numbers, and a table written by what is not the factory's.
use crate::numbers;
use crate::words::Words;
use std::io;
use tables::Table;

// The number that a word puts in for an id, and the one that it wants there, which is the same if it names no other.
#[derive(Clone, Copy)]
pub struct Put {
    pub id: u16,
    pub number: usize,
    pub wanted: usize,
}

impl Put {
    // Returns what a word ID=NUMBER or ID=NUMBER>NUMBER puts in.
    pub fn of(word: &[u8]) -> Option<Put> {
        let mut sides = word.splitn(2, |char| *char == b'=');
        let id = numbers::id(sides.next()?)?;
        let mut both = sides.next()?.splitn(2, |char| *char == b'>');
        let number = numbers::number(both.next()?)?;
        let wanted = match both.next() {
            Some(wanted) => numbers::number(wanted)?,
            None => number,
        };
        Some(Put { id, number, wanted })
    }

    // Returns whether a word puts in a number.
    pub fn is(word: &[u8]) -> bool {
        Put::of(word).is_some()
    }
}

// Returns the number that words put in for an id.
pub fn number_for(words: Words, id: u16) -> Option<usize> {
    words
        .filter_map(Put::of)
        .filter(|put| put.id == id)
        .last()
        .map(|put| put.number)
}

// Returns the factory table with the numbers of words, allowed or not, and the one with those that are wanted.
pub fn tables_of(words: Words) -> (Table, Table) {
    let mut from = Table::factory();
    let mut to = from;
    for put in words.filter_map(Put::of) {
        if let Some(setting) = settings::find(put.id) {
            from = with(from, setting.index, put.number);
            to = with(to, setting.index, put.wanted);
        }
    }
    (from, to)
}

// Returns the factory table with the numbers of words, allowed or not.
pub fn table_of(words: Words) -> Table {
    tables_of(words).0
}

// Returns a table with a number at a place. `try_settings` has one of its own, whose numbers are a setting's: a crate for the two would be
// longer.
fn with(table: Table, place: usize, number: usize) -> Table {
    let mut after = table;
    if let Some(held) = after.numbers.get_mut(place) {
        *held = numbers::as_16(number);
    }
    after
}

// Writes every setting of a table whose number is not the factory's.
pub fn differences(rt: &impl Print, table: Table) -> io::Result<()> {
    let factory = Table::factory();
    for (place, (number, usual)) in table.numbers.iter().zip(&factory.numbers).enumerate() {
        if number != usual {
            let id = settings::setting_at(place).id;
            print!(rt; " {id:04X}={number}")?;
        }
    }
    Ok(())
}
