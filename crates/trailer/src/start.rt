use crate::words;
use board::{Board, Handed};
use ports::System;
use tables::Table;

// The board of document 01's worked lines.
const PRODUCT: u16 = 0xA381;

const VERSION: u16 = 0x4401;

// Returns the board that the arguments ask for, or none and says why.
pub(crate) fn board(system: System) -> Option<Board> {
    let table = table(system)?;
    let product = number(system, words::PRODUCT, PRODUCT)?;
    let version = number(system, words::VERSION, VERSION)?;
    let mut room = ports::buffer();
    let serial = words::word(system, words::SERIAL, &mut room).unwrap_or_default();
    started(system, Board::start(product, version, serial, table))
}

// Returns the number of an argument, or the one to take where it is left out; none and says so where it is no number.
fn number(system: System, place: usize, otherwise: u16) -> Option<u16> {
    let mut room = ports::buffer();
    let Some(word) = words::word(system, place, &mut room) else {
        return Some(otherwise);
    };
    let number = words::hex(word);
    if number.is_none() {
        words::say(
            system,
            b"not started: PRODUCT and VERSION are four hex digits each, such as A381",
        );
    }
    number
}

// Returns the board of a start, or none and says why.
fn started(system: System, handed: Handed) -> Option<Board> {
    if handed.verdict.is_err() {
        words::say(
            system,
            b"not started: SERIAL has over 32 characters, or one outside 0x20..0x7E",
        );
        return None;
    }
    Some(handed.board)
}

// Returns the table that the arguments ask for, or none and says why.
fn table(system: System) -> Option<Table> {
    let mut room = ports::buffer();
    match words::word(system, words::START, &mut room) {
        Some(path) => table_at(system, path),
        None => Some(Table::factory()),
    }
}

// Returns the table of the file at a path, or none and says why.
fn table_at(system: System, path: &[u8]) -> Option<Table> {
    match ports::open_read(system, path) {
        Ok(file) => {
            let mut room = ports::buffer();
            read(system, ports::read_full(&file, &mut room))
        }
        Err(error) => {
            ports::fail(system, path, error);
            words::say(system, b"not started: START cannot be read");
            None
        }
    }
}

// Returns the table of a backup text, or none and says why.
fn read(system: System, text: &[u8]) -> Option<Table> {
    let backup = backup::read(text);
    if backup.verdict.is_err() {
        words::say(
            system,
            b"not started: START is refused, and `night check` says why",
        );
        return None;
    }
    Some(backup.table)
}
