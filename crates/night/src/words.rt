// The program's arguments, and how it writes its report.
use lines::Line;
use ports::{Report, System};

// The places of the arguments, and how long the command may be.
pub(crate) const COMMAND: usize = 1;

pub(crate) const FIRST: usize = 2;

pub(crate) const SECOND: usize = 3;

pub(crate) const MOST_COMMAND: usize = 16;

// The longest name of a trailer that is shown whole, and how much is shown at each end of a longer one.
const MOST_NAME: usize = 32;

const NAME_END: usize = 15;

// Reasons of the system, by its numbers, since one `ErrorKind` stands for several (EACCES and EPERM are one); and the largest number that
// one is told by. `ports` has two more.
const IO: i32 = 5;

const NO_DEVICE_NOW: i32 = 6;

const NOT_ALLOWED: i32 = 13;

const BUSY: i32 = 16;

const NO_DEVICE: i32 = 19;

const NO_FOLDER: i32 = 20;

const MOST_REASON: usize = 4096;

// Copies an argument into a buffer and returns it. One that is missing or longer than the buffer is empty, which names no command and no
// file.
pub(crate) fn arg<'a>(system: System, place: usize, into: &'a mut [u8]) -> &'a [u8] {
    ports::arg(system, place, into).unwrap_or_default()
}

// Says how the program is used.
pub(crate) fn usage(system: System) {
    say(
        ports::error(system),
        b"usage: night save LINE FILE | check FILE | restore LINE FILE | plan LINE FILE | show LINE | yard LIST [tsv] | lines LIST",
    );
}

// Writes a part of a line. Nobody would hear that the report cannot be written.
pub(crate) fn put(report: Report, text: &[u8]) {
    let _ = ports::write_all(report, text);
}

// Writes a line of fixed text.
pub(crate) fn say(report: Report, text: &[u8]) {
    put(report, text);
    end(report);
}

// Writes a line of the report. With `say` and `put` alone, each call with a `Line` would have to end in `.text.as_slice()`, as this one.
pub(crate) fn tell(report: Report, line: Line) {
    say(report, line.text.as_slice());
}

// Writes a part of a line, likewise.
pub(crate) fn add(report: Report, line: Line) {
    put(report, line.text.as_slice());
}

// Ends a line.
pub(crate) fn end(report: Report) {
    put(report, b"\n");
}

// Writes the name that a line begins with.
pub(crate) fn name(report: Report, name: &[u8]) {
    put(report, name);
    put(report, b": ");
}

// Writes a name that a row begins with. A long one is written by its two ends, so that it does not push the rest off the row.
pub(crate) fn short(report: Report, name: &[u8]) {
    if name.len() <= MOST_NAME {
        put(report, name);
        return;
    }
    put(report, &name[..NAME_END]);
    put(report, b"..");
    put(report, &name[name.len() - NAME_END..]);
}

// Puts the system's reason, by its number. A row of the report has these eight in words and any other as `error N`, where `Display` (and so
// `ports::fail`) has words for every number: what is printed must stay.
pub(crate) fn put_reason(line: Line, error: i32) -> Line {
    match error {
        ports::NOTHING_THERE => line.put(b"No such file or directory"),
        IO => line.put(b"Input/output error"),
        NO_DEVICE_NOW => line.put(b"No such device or address"),
        NOT_ALLOWED => line.put(b"Permission denied"),
        BUSY => line.put(b"Device or resource busy"),
        NO_DEVICE => line.put(b"No such device"),
        NO_FOLDER => line.put(b"Not a directory"),
        ports::A_FOLDER => line.put(b"Is a directory"),
        _ => line
            .put(b"error ")
            .put_number(usize::try_from(error).unwrap_or(0).min(MOST_REASON)),
    }
}

// Returns whether a character separates words. The form feed, which `trim_ascii` takes too, does not.
pub(crate) fn is_blank(c: u8) -> bool {
    matches!(c, b' ' | b'\t' | b'\r' | b'\n')
}

// Returns a text without the blanks at its front: `trim_ascii_start` would take a form feed too, and what is printed would change.
pub(crate) fn past_blanks(text: &[u8]) -> &[u8] {
    let start = text.iter().position(|c| !is_blank(*c));
    &text[start.unwrap_or(text.len())..]
}

// Returns a text without the blanks at its end: `trim_ascii_end` would take a form feed too.
pub(crate) fn filled(text: &[u8]) -> &[u8] {
    match text.iter().rposition(|c| !is_blank(*c)) {
        Some(last) => &text[..last + 1],
        None => &[],
    }
}
