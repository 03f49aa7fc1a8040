// A row of text: an id in four digits, a tab, a decimal number and a newline; written, parsed, and judged for the setting that is due.
// Every call takes anything, and its promise fixes its answer and every lent byte (specs/Calls.antt).
#![tactic(auto)]

ghost use Rattle.std.specs.Prelude.{◌≡◌, length};
ghost use Rattle.laws.specs.Promise.{Gives};
ghost use Rattle.wire.specs.Answers.{Written};
ghost use Rattle.rows.specs.Calls.{writing, parsing, judging};

use paper::Refusal;

mod decimals;
mod reader;
mod writer;

// The room that writing a row needs: the longest number has five digits.
pub const ROW_ROOM: usize = 11;

pub(crate) const TAB: u8 = b'\t';

// A row as it is read: its id, its number and how many bytes it takes.
#[derive(Clone, Copy, PartialEq, Eq)]
pub struct Row {
    pub id: u16,
    pub number: usize,
    pub len: usize,
}

// A row judged: its number, which its setting may hold, and how many bytes it takes.
#[derive(Clone, Copy, PartialEq, Eq)]
pub struct Judged {
    pub number: u16,
    pub len: usize,
}

// Writes the row of an id and a number to the front of `out`, and returns its length. Refuses 11 under 11 bytes of room; then nothing is
// written.
pub fn write(id: u16, number: u16, out: &mut [u8]) -> Result<usize, Refusal>
    ensures { Gives Written (writing id number (length out.old)) out.old result out.new }
{
    if out.len() < ROW_ROOM {
        return Err(Refusal::ShortBuffer);
    }
    let row = writer::row_of(id, number);
    Ok(spans::copy(row.text.as_slice(), out))
}

// Reads the row at the front of a text: 14 for a line of another form, or a text that ends before a newline. That is asked last: asked
// before the line is parsed, it made the compiler's loop to the newline longer.
#[tactic(auto, using(crate::proofs::Rows::line_read, crate::proofs::Rows::not_ended, crate::proofs::Rows::no_row))]
pub fn read(text: &[u8]) -> Result<Row, Refusal>
    ensures { result ≡ parsing text.now }
{
    let len = spans::find(text, paper::NEWLINE);
    match reader::row_in(&text[..len]) {
        Some(row) if len < text.len() => Ok(row),
        _ => Err(Refusal::BadLine),
    }
}

// Judges the row at the front of a text, where that of the setting at a place is due: 12 for a place past the table; then 14, then 15 for
// another id, then 16 for a number outside the setting's own range, and five digits can say more than any range has.
#[tactic(auto, using(crate::proofs::Ranges::range_wide), unfolding(crate::specs::Calls::judging, crate::specs::Calls::judged_as, settings::specs::Calls::placing, settings::specs::Calls::ranging))]
pub fn judge(text: &[u8], index: usize) -> Result<Judged, Refusal>
    ensures { result ≡ judging index text.now }
{
    let due = settings::at(index).ok_or(Refusal::NotAllowed)?;
    let Row { id, number, len } = read(text)?;
    if id != due.id {
        return Err(Refusal::OtherId);
    }
    match u16::try_from(number) {
        Ok(number) if settings::in_range(index, number) => Ok(Judged { number, len }),
        _ => Err(Refusal::OutOfRange),
    }
}
