// Backup files: a text read, and a text kept so that a failure or a power cut leaves the old file or the new one, and nothing between.
use crate::disk::Kind;
use crate::serial::Ends;
use crate::{disk, words};
use backup::Backup;
use lines::Line;
use ports::{Report, System};
use sentences::Kept;
use std::fs::File;
use std::io;
use std::io::ErrorKind;
use tables::Table;

// The mode of a kept file: owner and others read, the owner writes.
const MODE: u32 = 0o644;

// Why a file is not all in a buffer: it has more than there is room for, of which this is the front, or a read failed.
#[derive(Clone, Copy)]
pub(crate) enum Unread<'a> {
    Long(&'a [u8]),
    Failed,
}

// Reads a file to its end: there a read gives nothing, and does not fail.
pub(crate) fn read_whole<'a>(file: &File, into: &'a mut [u8]) -> Result<&'a [u8], Unread<'a>> {
    let room = into.len();
    let text = ports::read_full(file, into);
    if text.len() == room {
        return Err(Unread::Long(text));
    }
    if !ports::is_at_end(file) {
        return Err(Unread::Failed);
    }
    Ok(text)
}

// Reads a backup text. One that fills the buffer is longer than any good text, and is refused for that. Where the file cannot be opened or
// read, it says so and returns none.
pub(crate) fn read<'a>(system: System, path: &[u8], into: &'a mut [u8]) -> Option<&'a [u8]> {
    let file = match ports::open_read(system, path) {
        Ok(file) => file,
        Err(error) => {
            ports::fail(system, path, error);
            return None;
        }
    };
    match read_whole(&file, into) {
        Ok(text) | Err(Unread::Long(text)) => Some(text),
        Err(Unread::Failed) => {
            words::name(ports::error(system), path);
            words::say(ports::error(system), b"it cannot be read");
            None
        }
    }
}

// Returns a path with an ending after it, in a buffer; nothing where there is no room, which is the name of no file.
fn joined<'a>(path: &[u8], ending: &[u8], into: &'a mut [u8]) -> &'a mut [u8] {
    let len = path.len().saturating_add(ending.len());
    let Some(name) = into.get_mut(..len) else {
        return &mut [];
    };
    name[..path.len()].copy_from_slice(path);
    name[path.len()..].copy_from_slice(ending);
    name
}

// Returns the folder that a path names: the path up to its last slash, or the folder that the program is run in.
fn folder_of(path: &[u8]) -> &[u8] {
    match path.iter().rposition(|c| *c == b'/') {
        Some(slash) => &path[..slash + 1],
        None => b".",
    }
}

// Writes a text to a temporary file beside `path`, and gives it that name only when it is whole. Until then the old file has the name.
fn replace(system: System, path: &[u8], text: &[u8]) -> Kept {
    let mut room = ports::buffer();
    let name = joined(path, b".XXXXXX", &mut room);
    match ports::create_temp(system, name) {
        Ok(file) => moved_to(system, file, name, path, text),
        Err(error) => {
            ports::fail(system, path, error);
            Kept::Not
        }
    }
}

// Writes a text to a temporary file that was made, and gives it the name `path`. Where that fails, the reason is told, and then the file is
// removed. The new one is kept for good once its folder is on the disk.
fn moved_to(system: System, file: File, name: &[u8], path: &[u8], text: &[u8]) -> Kept {
    if let Err(error) = write(file, text).and_then(|_| ports::rename(system, name, path)) {
        ports::fail(system, path, error);
        let _ = ports::remove(system, name);
        return Kept::Not;
    }
    if let Err(error) = ports::sync_folder(system, folder_of(path)) {
        ports::fail(system, path, error);
        return Kept::Unsure;
    }
    Kept::Whole
}

// Writes a text to a new file, makes sure that it is on the disk, and closes it.
fn write(file: File, text: &[u8]) -> io::Result<()> {
    ports::fill(&file, text, MODE)
}

// Says that what is at the path is not replaced, and why.
fn refuse(report: Report, path: &[u8], why: &[u8]) {
    words::put(report, path);
    words::say(report, why);
}

// Returns whether a file may have this name: there is none, or a file. Where something else is there, it says so.
pub(crate) fn is_free(ends: &Ends, path: &[u8]) -> bool {
    let why: &[u8] = match disk::at(ends.system, path) {
        Kind::Nothing | Kind::File => return true,
        Kind::Link => b" is a link and is not replaced: name a file",
        Kind::Folder => b" is a folder and is not replaced: name a file",
        Kind::Device => b" is a device or a pipe and is not replaced: name a file",
        Kind::Shut => b" cannot be opened and is not replaced",
    };
    refuse(ends.report, path, why);
    false
}

// Returns how an old table differs from the one that is saved.
fn difference(old: Backup, table: Table) -> Line {
    let line = Line::start();
    if old.verdict.is_err() {
        return line.put(b"it is no good backup");
    }
    match restore::sets_due(old.table, table) {
        Ok(due) => line.put_number(due).put(b" settings differ"),
        Err(_) => line.put(b"it differs"),
    }
}

// Writes a text to a new file of its own.
fn write_new(system: System, name: &mut [u8], text: &[u8]) -> io::Result<()> {
    write(ports::create_temp(system, name)?, text)
}

// Keeps an old text beside the new one, and then replaces it. Where that fails, nothing is left beside it.
// (Ends, path, text and table come apart here and below: a value of the four would be made in `keep` alone and taken apart in each.)
fn set_aside(ends: &Ends, path: &[u8], old: &[u8], text: &[u8], table: Table) -> Kept {
    let system = ends.system;
    let mut room = ports::buffer();
    let name = joined(path, b".old-XXXXXX", &mut room);
    if let Err(error) = write_new(system, name, old) {
        ports::fail(system, path, error);
        let _ = ports::remove(system, name);
        return Kept::Not;
    }
    let kept = replace(system, path, text);
    if kept == Kept::Not {
        let _ = ports::remove(system, name);
    } else {
        tell_aside(ends.report, name, old, table);
    }
    kept
}

// Says where an old text is, and how it differs from the new one.
fn tell_aside(report: Report, name: &[u8], old: &[u8], table: Table) {
    words::put(report, b"the old file is kept as ");
    words::name(report, name);
    words::tell(report, difference(backup::read(old), table));
}

// Replaces an old text by a new one. One that differs is kept beside it.
fn replace_old(ends: &Ends, path: &[u8], old: &[u8], text: &[u8], table: Table) -> Kept {
    if old == text {
        return replace(ends.system, path, text);
    }
    set_aside(ends, path, old, text, table)
}

// Replaces the text of an open file. One that cannot be read whole is not replaced, since it could not be kept.
fn replace_open(ends: &Ends, file: File, path: &[u8], text: &[u8], table: Table) -> Kept {
    let mut room = ports::buffer();
    let why: &[u8] = match read_whole(&file, &mut room) {
        Ok(old) => return replace_old(ends, path, old, text, table),
        Err(Unread::Long(_)) => b" has over 4095 bytes and is no backup: name another file",
        Err(Unread::Failed) => b" cannot be read: name another file",
    };
    refuse(ends.report, path, why);
    Kept::Not
}

// Keeps a text under a name, and what is there beside it, if it differs. What cannot be opened is not replaced, unless nothing is there.
fn keep_text(ends: &Ends, path: &[u8], text: &[u8], table: Table) -> Kept {
    match ports::open_read(ends.system, path) {
        Ok(file) => replace_open(ends, file, path, text, table),
        Err(error) if error.kind() == ErrorKind::NotFound => replace(ends.system, path, text),
        Err(error) => {
            ports::fail(ends.system, path, error);
            Kept::Not
        }
    }
}

// Keeps a table as a backup text. That `len` fits the room follows from the promise of `backup::write` only through the texts' lengths,
// hence `get`.
pub(crate) fn keep(ends: &Ends, path: &[u8], table: Table) -> Kept {
    let mut room = [0; paper::TEXT_ROOM];
    match backup::write(table, &mut room) {
        Ok(len) => keep_text(ends, path, room.get(..len).unwrap_or_default(), table),
        Err(_) => Kept::Not,
    }
}

// Notes a serial beside a file, or says why not.
pub(crate) fn note(ends: &Ends, path: &[u8], serial: Option<Line>) {
    let Some(serial) = serial else {
        words::say(
            ends.report,
            b"no serial is noted: the board did not tell it",
        );
        return;
    };
    let mut room = ports::buffer();
    let name = joined(path, b".serial", &mut room);
    note_as(ends, name, serial);
}

// Notes a serial under a name.
fn note_as(ends: &Ends, name: &[u8], serial: Line) {
    let report = ends.report;
    if !is_free(ends, name) {
        words::say(report, b"no serial is noted");
        return;
    }
    tell_before(ends, name, serial);
    match replace(ends.system, name, serial.put(b"\n").text.as_slice()) {
        Kept::Not => words::say(report, b"no serial is noted: its file cannot be written"),
        Kept::Unsure | Kept::Whole => tell_noted(report, name, serial),
    }
}

// Says so where another serial is noted under a name: the file was saved from another board.
fn tell_before(ends: &Ends, name: &[u8], serial: Line) {
    let Ok(file) = ports::open_read(ends.system, name) else {
        return;
    };
    let mut room = ports::buffer();
    let old = words::filled(ports::read_full(&file, &mut room));
    if old != serial.text.as_slice() {
        words::put(ends.report, b"another board than before, whose serial was ");
        words::say(ends.report, old);
    }
}

// Says which serial is noted where.
fn tell_noted(report: Report, name: &[u8], serial: Line) {
    words::add(report, Line::start().put(b"serial "));
    words::add(report, serial);
    words::put(report, b" is noted in ");
    words::say(report, name);
}
