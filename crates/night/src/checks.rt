// `night check FILE`, and the words for what is wrong in a file.
use crate::{file, names, words};
use backup::BadText;
use lines::Line;
use paper::Refusal;
use ports::{Report, System};
use settings::COUNT;

// How long the first line of a backup text is. `backup` keeps its own: the clause `parsing` of `backup::read` has the
// table and the verdict alone.
const HEADER_LEN: usize = 12;

// Says whether the file is good, or what is wrong in it and where.
pub(crate) fn run(system: System) {
    let mut path = ports::buffer();
    let mut text = ports::buffer();
    let path = words::arg(system, words::FIRST, &mut path);
    if let Some(text) = file::read(system, path, &mut text) {
        tell(ports::output(system), text);
    }
}

// Says the verdict on a text, and the reason for a refusal.
pub(crate) fn tell(report: Report, text: &[u8]) {
    let verdict = backup::read(text).verdict;
    words::add(report, sentences::judged(verdict));
    if let Err(bad) = verdict {
        words::add(report, put_why(Line::start().put(b": "), bad, text));
    }
    words::end(report);
}

// Puts the reason for a refusal.
fn put_why(line: Line, bad: BadText, text: &[u8]) -> Line {
    match bad.refusal {
        Refusal::OtherHeader => put_header(line, text),
        Refusal::BadLine => line.put(
            b"not four digits, a tab, a number of 1 to 5 digits and a newline",
        ),
        Refusal::OtherId => line.put(b"another id is due here"),
        Refusal::OutOfRange => put_range(line, bad.line),
        Refusal::PairDisagrees => put_pair(line, text),
        Refusal::MoreBytes => line.put(b"bytes follow the last line"),
        _ => line.put(b"not allowed"),
    }
}

// Puts what the first line should be, or that the file has the line ends of another system.
fn put_header(line: Line, text: &[u8]) -> Line {
    if text.contains(&b'\r') {
        return line.put(b"the file has carriage returns: save it with plain line ends");
    }
    line.put(b"the first line is not settings, a tab and ")
        .put_number(COUNT)
}

// Puts the setting of a row, of which the first is the header, and its range.
fn put_range(line: Line, row: usize) -> Line {
    let Some(index) = row.checked_sub(2) else {
        return line;
    };
    let title = names::put_title(line, index).put(b" is outside its range, ");
    names::put_range(title, index)
}

// Returns the number of the setting at a place, in a text whose lines are good.
fn number_at(text: &[u8], place: usize) -> Option<u16> {
    let mut rest = text.get(HEADER_LEN..).unwrap_or_default();
    for index in 0..place {
        rest = match rows::judge(rest, index) {
            Ok(judged) => rest.get(judged.len..).unwrap_or_default(),
            Err(_) => &[],
        };
    }
    rows::judge(rest, place).ok().map(|judged| judged.number)
}

// Returns whether the setting at a place agrees with its partner.
fn agrees(text: &[u8], index: usize) -> bool {
    let partner = settings::setting_at(index).partner;
    match (number_at(text, index), number_at(text, partner)) {
        (Some(number), Some(other)) => settings::allows(index, number, other),
        _ => false,
    }
}

// Puts the first pair that disagrees, with both numbers.
fn put_pair(line: Line, text: &[u8]) -> Line {
    let Some(index) = (0..COUNT).find(|index| !agrees(text, *index)) else {
        return line;
    };
    let partner = settings::setting_at(index).partner;
    let begun = put_held(line, index, number_at(text, index)).put(b" and ");
    put_held(begun, partner, number_at(text, partner)).put(b" disagree")
}

// Puts a setting and its number.
fn put_held(line: Line, index: usize, number: Option<u16>) -> Line {
    let titled = names::put_title(line, index).put(b" ");
    match number {
        Some(number) => names::put_amount(titled, index, number),
        None => titled,
    }
}
