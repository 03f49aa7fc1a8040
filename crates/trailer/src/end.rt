use crate::words;
use board::Board;
use ports::System;
use tables::Table;

// Writes the board's settings as a backup text to the file that was named, if one was.
pub(crate) fn store(system: System, board: Board) {
    let mut room = ports::buffer();
    if let Some(path) = words::word(system, words::END, &mut room) {
        write(system, path, board.core.table);
    }
}

// Writes a table as a backup text to a file. `&room[..len]` was tried: that the length fits is known only through the text that `writing`
// defines, and the proof did not close.
fn write(system: System, path: &[u8], table: Table) {
    let mut room = [0; paper::TEXT_ROOM];
    match backup::write(table, &mut room) {
        Ok(len) => keep(system, path, room.get(..len).unwrap_or_default()),
        Err(_) => words::say(system, b"not written: the board's table is not allowed"),
    }
}

// Writes a text to a file.
fn keep(system: System, path: &[u8], text: &[u8]) {
    match ports::open_overwrite(system, path) {
        Ok(file) => {
            if let Err(error) = ports::write_file(&file, text) {
                ports::fail(system, path, error);
                words::say(system, b"not written: END may be incomplete");
            }
        }
        Err(error) => {
            ports::fail(system, path, error);
            words::say(system, b"not written: END cannot be opened");
        }
    }
}
