// `night restore LINE FILE`, and `night plan LINE FILE`, which sets nothing.
use crate::serial::Ends;
use crate::{checks, collecting, file, restoring, serial, words};
use collect::Stage;
use lines::Line;
use ports::System;
use tables::Table;

// `night restore LINE FILE`.
pub(crate) fn run(system: System) {
    let Some(ends) = serial::first(system) else {
        return;
    };
    if let Some((from, to)) = compared(&ends) {
        let restored = restoring::follow(&ends, from, to, Some(ends.report));
        restoring::tell_end(ends.report, &restored);
    }
}

// `night plan LINE FILE`.
pub(crate) fn plan(system: System) {
    let Some(ends) = serial::first(system) else {
        return;
    };
    if let Some((from, to)) = compared(&ends) {
        words::tell(ends.report, planned(from, to));
    }
}

// Returns the board's table and the file's, and shows the list of what differs; none where one of the two was not read, and says why. The
// serial line is open before: where the two arguments are swapped, the device is not read as a file.
fn compared(ends: &Ends) -> Option<(Table, Table)> {
    let to = wanted(ends)?;
    words::say(ends.report, b"reading the board");
    let read = collecting::settings_of(ends, None);
    match read.machine.stage {
        Stage::Done => {
            restoring::show_list(ends.report, read.machine.table, to);
            Some((read.machine.table, to))
        }
        _ => {
            collecting::tell_end(ends.report, &read);
            None
        }
    }
}

// Returns the table of the file, if it is good.
fn wanted(ends: &Ends) -> Option<Table> {
    let mut path = ports::buffer();
    let mut text = ports::buffer();
    let path = words::arg(ends.system, words::SECOND, &mut path);
    let Some(text) = file::read(ends.system, path, &mut text) else {
        words::say(ends.report, b"nothing was sent: the file cannot be read");
        return None;
    };
    let backup = backup::read(text);
    if backup.verdict.is_err() {
        checks::tell(ends.report, text);
        return None;
    }
    Some(backup.table)
}

// Returns what a restore would do; `restore::sets_due` has a promise for any two tables.
fn planned(from: Table, to: Table) -> Line {
    let line = Line::start();
    match restore::sets_due(from, to) {
        Ok(0) => line.put(b"equal: nothing to set"),
        Ok(due) => line
            .put(b"plan: ")
            .put_number(due)
            .put(b" of ")
            .put_number(settings::COUNT)
            .put(b" settings would be set; no Set was sent"),
        Err(_) => line.put(b"refused 12"),
    }
}
