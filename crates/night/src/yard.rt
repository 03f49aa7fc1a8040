// `night yard LIST`: each trailer in turn, one line of the report for each, and the sums at the end. `night yard LIST tsv` writes a table
// for machines to standard output, and the same report to standard error.
use crate::file::Unread;
use crate::list::{Row, Trailer};
use crate::serial::{Ends, NotOpen};
use crate::talk::Talk;
use crate::{checks, collecting, file, list, restoring, serial, talk, whose, words};
use collect::{Collected, Stage};
use lines::Line;
use ports::{Report, System};
use tables::Table;
use tally::{Counted, Tally};

// The most rows of a list that fits its buffer: each but the last ends in a newline.
const MOST_ROWS: usize = 65536;

// The sums so far, the system, where the report goes, where the table for machines goes, if there is one, and whether this is the last round
// (`tally::begins_anew` asks for it).
#[derive(Clone, Copy)]
struct Sheet {
    tally: Tally,
    system: System,
    report: Report,
    table: Option<Report>,
    last: bool,
}

// The way in which the sums have counted a trailer.
#[derive(Clone, Copy)]
enum Way {
    Done,
    Equal,
    Stopped,
    Silent,
    Unbegun,
}

// `night yard LIST`.
pub(crate) fn run(system: System) {
    begin(system, ports::output(system), None);
}

// `night yard LIST tsv`.
pub(crate) fn run_table(system: System) {
    let mut room = ports::buffer();
    match words::arg(system, words::SECOND, &mut room) {
        b"tsv" => begin(system, ports::error(system), Some(ports::output(system))),
        _ => words::usage(system),
    }
}

// Begins only with a list that was read whole: a trailer past what was read would be left out without a word.
fn begin(system: System, report: Report, table: Option<Report>) {
    let mut room = ports::large_buffer();
    let sheet = Sheet {
        tally: Tally::nothing(),
        system,
        report,
        table,
        last: false,
    };
    match list::read(system, &mut room) {
        Ok(list) => work(sheet, list),
        Err(Unread::Failed) => { words::say(report, b"nothing was begun: the list cannot be read") }
        Err(Unread::Long(_)) => {
            words::say(report, b"nothing was begun: the list has over 65535 bytes")
        }
    }
}

// Restores all trailers of the list, and tells the sums. Two rows with the same serial line would be two restores of one board, so it begins
// none. (Two names of one device are the launcher's to compare: it gives both rows one name.)
fn work(mut sheet: Sheet, list: &[u8]) {
    if let Some(line) = list::doubled(list) {
        words::name(sheet.report, b"nothing was begun: two rows have one line");
        words::say(sheet.report, line);
        return;
    }
    // No heap: a mark for each row that there can be.
    let mut left = [true; MOST_ROWS];
    sheet.round(list, &mut left);
    sheet.last = true;
    sheet.round(list, &mut left);
    words::tell(sheet.report, sentences::summed(sheet.tally));
}

// Returns the way in which a trailer was counted, by the sums before and after it; none where it was not. `Counted` does not tell it: its
// clause `counting` has the sums and a verdict alone.
fn way_of(before: Tally, after: Tally) -> Option<Way> {
    if before.done < after.done {
        Some(Way::Done)
    } else if before.equal < after.equal {
        Some(Way::Equal)
    } else if before.stopped < after.stopped {
        Some(Way::Stopped)
    } else if before.silent < after.silent {
        Some(Way::Silent)
    } else if before.unbegun < after.unbegun {
        Some(Way::Unbegun)
    } else {
        None
    }
}

// Returns the word of the sums, where the sentence that follows does not begin with it.
fn word_of(way: Option<Way>) -> &'static [u8] {
    match way {
        Some(Way::Silent) => b"silent: ",
        Some(Way::Unbegun) => b"not begun: ",
        Some(Way::Done | Way::Equal | Way::Stopped) => b"",
        None => b"not counted: ",
    }
}

// Returns the column of the way in which a trailer was counted.
fn column_of(way: Option<Way>) -> &'static [u8] {
    match way {
        Some(Way::Done) => b"done",
        Some(Way::Equal) => b"equal",
        Some(Way::Stopped) => b"stopped",
        Some(Way::Silent) => b"silent",
        Some(Way::Unbegun) => b"not begun",
        None => b"not counted",
    }
}

// Writes the row of a table for machines: name, serial, way, and how many Sets were confirmed of how many that were due, tabs between. The
// name of a row that is no trailer's is the row, up to its first tab.
fn tell_columns(out: Report, name: &[u8], serial: Option<Line>, before: Tally, after: Tally) {
    words::put(out, &name[..spans::find(name, b'\t')]);
    words::put(out, b"\t");
    if let Some(line) = serial {
        words::add(out, line);
    }
    words::put(out, b"\t");
    words::put(out, column_of(way_of(before, after)));
    let confirmed = after.confirmed.saturating_sub(before.confirmed);
    let due = after.due.saturating_sub(before.due);
    let counts = Line::start().put(b"\t").put_number(confirmed);
    words::tell(out, counts.put(b"\t").put_number(due));
}

// Name and serial come apart: in `trailer` and `meet` there is a name without a serial, and a value of both would be made at each call.
impl Sheet {
    // Restores the trailers of a list, a row each, as far as they are left; and notes which are left then, since none was counted: the row
    // has none, or its trailer is begun anew in the last round.
    fn round(&mut self, list: &[u8], left: &mut [bool]) {
        for (text, left) in list.split(|c| *c == b'\n').zip(left.iter_mut()) {
            if *left {
                let before = self.tally;
                self.row(text);
                *left = way_of(before, self.tally).is_none();
            }
        }
    }

    // Restores the trailer of a row.
    fn row(&mut self, text: &[u8]) {
        match list::row_of(text) {
            Row::Skipped => {}
            Row::Short(row) => {
                self.unmet(row, b"a row has a name, a line and a file, blanks between")
            }
            Row::Of(trailer) => self.trailer(trailer),
        }
    }

    // Begins the row of a trailer: its name, and the serial of its board.
    fn title(&self, name: &[u8], serial: Option<Line>) {
        words::short(self.report, name);
        if let Some(line) = serial.filter(|line| line.text.len > 0) {
            words::put(self.report, b" (");
            words::add(self.report, line);
            words::put(self.report, b")");
        }
        words::put(self.report, b": ");
    }

    // Begins the row of a trailer, with the word by which the sums have counted it.
    fn head(&self, name: &[u8], serial: Option<Line>, counted: Counted) {
        self.title(name, serial);
        words::put(self.report, word_of(way_of(self.tally, counted.tally)));
    }

    // Ends the row of a trailer, and takes the sums with it. A trailer that the sums refuse is told, so that none is lost without a word.
    fn finish(&mut self, name: &[u8], serial: Option<Line>, counted: Counted) {
        if let Some(out) = self.table {
            tell_columns(out, name, serial, self.tally, counted.tally);
        }
        if counted.verdict.is_err() {
            words::name(self.report, name);
            words::say(
                self.report,
                b"not counted: the sums below are without this trailer",
            );
        }
        self.tally = counted.tally;
    }

    // Says that a trailer is not begun and why, and counts it.
    fn not_begun(&mut self, name: &[u8], serial: Option<Line>, why: &[u8]) {
        let counted = self.tally.not_begun();
        self.head(name, serial, counted);
        words::say(self.report, why);
        self.finish(name, serial, counted);
    }

    // Tells and counts a trailer that is not begun, of which no serial is known.
    fn unmet(&mut self, name: &[u8], why: &[u8]) {
        self.not_begun(name, None, why);
    }

    // Restores one trailer. Its serial line is opened first: where the serial line and the file are swapped, the device is not read as a
    // file.
    fn trailer(&mut self, trailer: Trailer) {
        if matches!(trailer.line, b"-") {
            self.unmet(trailer.name, b"in a yard a line is a device");
            return;
        }
        match serial::open(self.system, trailer.line) {
            Ok(ends) => self.open(trailer, &ends),
            Err(NotOpen::File) => self.unmet(trailer.name, b"its line is a file and no line"),
            Err(NotOpen::Reason(error)) => {
                let why = Line::start().put(b"its line cannot be opened: ");
                self.unmet(trailer.name, words::put_reason(why, error).text.as_slice());
            }
        }
    }

    // Reads the file of a trailer whose serial line is open, and goes on if it is good.
    fn open(&mut self, trailer: Trailer, ends: &Ends) {
        let mut room = ports::buffer();
        let Some(text) = file::read(self.system, trailer.file, &mut room) else {
            self.unmet(trailer.name, b"its file cannot be read");
            return;
        };
        let backup = backup::read(text);
        if backup.verdict.is_ok() {
            self.meet(trailer, ends, backup.table);
            return;
        }
        let counted = self.tally.not_begun();
        self.head(trailer.name, None, counted);
        checks::tell(self.report, text);
        self.finish(trailer.name, None, counted);
    }

    // Asks the board for its serial, and goes on if it is the board that the row expects, if it expects one.
    fn meet(&mut self, trailer: Trailer, ends: &Ends, to: Table) {
        let Some(wanted) = trailer.serial else {
            self.restore(trailer.name, ends, whose::ask(ends, 1), to);
            return;
        };
        let serial = whose::ask(ends, talk::MOST_REQUESTS);
        match serial {
            Some(line) if line.text.as_slice() == wanted => {
                self.restore(trailer.name, ends, serial, to)
            }
            Some(_) => self.not_begun(trailer.name, serial, b"another board"),
            None => self.unmet(trailer.name, b"the board did not tell its serial"),
        }
    }

    // Reads the board's settings, and restores it if all were answered.
    fn restore(&mut self, name: &[u8], ends: &Ends, serial: Option<Line>, to: Table) {
        let read = collecting::settings_of(ends, None);
        match read.machine.stage {
            Stage::Done => self.follow(name, ends, serial, read.machine.table, to),
            _ => self.unread(name, serial, &read),
        }
    }

    // Tells of a board that did not give all its settings. One that gave no answer is silent; with one that said what does not fit, the
    // restore is not begun.
    fn unread(&mut self, name: &[u8], serial: Option<Line>, read: &Talk<Collected>) {
        let counted = if read.said.as_slice().is_empty() {
            self.tally.silent()
        } else {
            self.tally.not_begun()
        };
        self.head(name, serial, counted);
        collecting::tell_end(self.report, read);
        self.finish(name, serial, counted);
    }

    // Follows the restore, tells its end, and counts the follower's own result; one that is begun anew at the end of the round is counted
    // then.
    fn follow(&mut self, name: &[u8], ends: &Ends, serial: Option<Line>, from: Table, to: Table) {
        let restored = restoring::follow(ends, from, to, None);
        let follower = restored.machine.follower;
        let answered = !restored.said.as_slice().is_empty();
        if tally::begins_anew(follower, answered, self.last) {
            self.title(name, serial);
            words::put(self.report, b"once more at the end: ");
            restoring::tell_end(self.report, &restored);
            return;
        }
        let counted = self.tally.restored(follower, answered);
        self.head(name, serial, counted);
        restoring::tell_end(self.report, &restored);
        self.finish(name, serial, counted);
    }
}
