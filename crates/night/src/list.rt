// The list of a yard: a row for each trailer with its name, its serial line and its file, blanks or tabs between, and after them, if it is
// wished, `serial=` and the serial of its board. A file's name may have blanks. An empty row and one that begins with # are skipped.
use crate::file::Unread;
use crate::{file, words};
use ports::System;

// What comes between a file and the serial of its board, after a blank.
const MARK: &[u8] = b"serial=";

// What a row of the list says of a trailer: the serial is the one that its board must have, if one is named.
#[derive(Clone, Copy)]
pub(crate) struct Trailer<'a> {
    pub(crate) name: &'a [u8],
    pub(crate) line: &'a [u8],
    pub(crate) file: &'a [u8],
    pub(crate) serial: Option<&'a [u8]>,
}

// A row of the list: one that is skipped, one that has less than a name, a line and a file, or a trailer's.
#[derive(Clone, Copy)]
pub(crate) enum Row<'a> {
    Skipped,
    Short(&'a [u8]),
    Of(Trailer<'a>),
}

// Reads the list that the first argument names into a buffer.
pub(crate) fn read(system: System, into: &mut [u8]) -> Result<&[u8], Unread<'_>> {
    let mut room = ports::buffer();
    let path = words::arg(system, words::FIRST, &mut room);
    match ports::open_read(system, path) {
        Ok(file) => file::read_whole(&file, into),
        Err(error) => {
            ports::fail(system, path, error);
            Err(Unread::Failed)
        }
    }
}

// Returns the first word of a text, and what follows the blanks after it.
#[inline(always)]
fn word_of(text: &[u8]) -> (&[u8], &[u8]) {
    let end = text.iter().position(|c| words::is_blank(*c));
    let (word, rest) = text.split_at(end.unwrap_or(text.len()));
    (word, words::past_blanks(rest))
}

// Returns whether a text is a blank and then the mark of a serial.
fn is_mark(text: &[u8]) -> bool {
    matches!(text, [blank, mark @ ..] if words::is_blank(*blank) && mark == MARK)
}

// Returns the name and the serial line of a row, and what follows them; none of a row that is skipped, or that ends before a file. It is
// inlined, as most of its callers want a part alone.
#[inline(always)]
fn front_of(text: &[u8]) -> Option<(&[u8], &[u8], &[u8])> {
    let (name, rest) = word_of(words::past_blanks(text));
    let (line, rest) = word_of(rest);
    if rest.is_empty() || name.starts_with(b"#") {
        None
    } else {
        Some((name, line, rest))
    }
}

// Returns the end of a row that begins with the file: its name, and the serial that follows it, if one does.
fn file_of(rest: &[u8]) -> (&[u8], Option<&[u8]>) {
    match rest.windows(1 + MARK.len()).position(is_mark) {
        Some(at) => (
            words::filled(&rest[..at]),
            Some(&rest[at + 1 + MARK.len()..]),
        ),
        None => (rest, None),
    }
}

// Returns what a row says.
pub(crate) fn row_of(text: &[u8]) -> Row<'_> {
    let row = words::filled(words::past_blanks(text));
    if matches!(row, [] | [b'#', ..]) {
        return Row::Skipped;
    }
    let Some((name, line, rest)) = front_of(row) else {
        return Row::Short(row);
    };
    let (file, serial) = file_of(rest);
    Row::Of(Trailer {
        name,
        line,
        file,
        serial,
    })
}

// Returns the serial line of a row that is a trailer's. Each row is compared with each before it, so nothing behind the line is looked at.
fn line_of(text: &[u8]) -> Option<&[u8]> {
    match front_of(text) {
        Some((_, line, _)) => Some(line),
        None => None,
    }
}

// Returns whether one of the first rows of the list has this serial line.
fn is_in(list: &[u8], count: usize, line: &[u8]) -> bool {
    list.split(|c| *c == b'\n')
        .take(count)
        .any(|row| line_of(row) == Some(line))
}

// Returns the first serial line that an earlier row has too.
pub(crate) fn doubled(list: &[u8]) -> Option<&[u8]> {
    for (count, row) in list.split(|c| *c == b'\n').enumerate() {
        let line = line_of(row);
        if line.is_some_and(|line| is_in(list, count, line)) {
            return line;
        }
    }
    None
}

// Tells the name and the serial line of each trailer (`night lines LIST`), so that a script that sets the serial lines need not read the
// list itself. Of a list that cannot be read it tells none; `night yard` tells why.
pub(crate) fn tell_lines(system: System) {
    let mut room = ports::large_buffer();
    let report = ports::output(system);
    let list = read(system, &mut room).unwrap_or_default();
    for row in list.split(|c| *c == b'\n') {
        if let Some((name, line, _)) = front_of(row) {
            words::put(report, name);
            words::put(report, b" ");
            words::say(report, line);
        }
    }
}
