// `night save LINE FILE`.
use crate::serial::Ends;
use crate::{collecting, file, serial, talk, whose, words};
use collect::{Collected, Collector, Stage};
use ports::{Report, System};
use sentences::Kept;

// Reads all settings, and writes the file once all were answered. What is no file is not replaced, so then nothing is read.
pub(crate) fn run(system: System) {
    let Some(ends) = serial::first(system) else {
        unsaved(ports::output(system));
        return;
    };
    let mut room = ports::buffer();
    let path = words::arg(system, words::SECOND, &mut room);
    if file::is_free(&ends, path) {
        save(&ends, path);
    } else {
        unsaved(ends.report);
    }
}

// Says that nothing is saved, since nothing was read.
fn unsaved(report: Report) {
    tell(report, Collector::start(), Kept::Not, b"");
}

// Reads all settings, and writes the file where all were read.
fn save(ends: &Ends, path: &[u8]) {
    let read = collecting::settings_of(ends, Some(ends.report));
    collecting::tell_end(ends.report, &read);
    let collected = read.machine;
    let kept = match collected.stage {
        Stage::Done => keep(ends, collected, path),
        _ => Kept::Not,
    };
    tell(ends.report, collected, kept, path);
}

// Writes the file, and notes the board's serial beside it.
fn keep(ends: &Ends, collected: Collected, path: &[u8]) -> Kept {
    let serial = whose::ask(ends, talk::MOST_REQUESTS);
    let kept = file::keep(ends, path, collected.table);
    if kept != Kept::Not {
        file::note(ends, path, serial);
    }
    kept
}

// Says whether the settings are saved, which the collector and what became of the file decide together; then the file's name, if it was
// written.
fn tell(report: Report, collected: Collected, kept: Kept, path: &[u8]) {
    words::add(report, sentences::saved(collected.collector, kept));
    match kept {
        Kept::Not => {}
        Kept::Unsure => named(report, b": ", path),
        Kept::Whole => named(report, b" to ", path),
    }
    words::end(report);
}

// Adds the file's name, after a word.
fn named(report: Report, word: &[u8], path: &[u8]) {
    words::put(report, word);
    words::put(report, path);
}
