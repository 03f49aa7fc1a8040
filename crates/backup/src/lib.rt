// The backup text: a table written as lines, and a text read back, line by line. Every call takes anything, and its promise fixes its
// answer and every lent byte (specs/Calls.antt).
#![tactic(auto)]

ghost use Rattle.std.specs.Prelude.{◌≡◌, length};
ghost use Rattle.laws.specs.Promise.{Gives};
ghost use Rattle.wire.specs.Answers.{Written};
ghost use Rattle.backup.specs.Calls.{writing, parsing};

use paper::Refusal;
use tables::Table;

mod reader;
mod writer;

// Why a text is refused, and in which line: a number and no Option, as document 01 fixes it, "the header being 1 (0 for 17 and 18)".
#[derive(Clone, Copy, PartialEq, Eq)]
pub struct BadText {
    pub refusal: Refusal,
    pub line: usize,
}

// What a text says: its table, or the factory table where it is refused. The table stands beside the verdict, as document 01 wants one of a
// refusal too: it "returns its number, the line [..] and the factory table".
#[derive(Clone, Copy, PartialEq, Eq)]
pub struct Backup {
    pub table: Table,
    pub verdict: Result<(), BadText>,
}

// The first line of every text.
const HEADER: &[u8] = b"settings\t26\n";

// Writes a table as text to the front of `out`, and returns its length. Refuses 11 under 512 bytes of room, then 12 for a table that is not
// allowed; then nothing is written.
pub fn write(table: Table, out: &mut [u8]) -> Result<usize, Refusal>
    ensures { Gives Written (writing table (length out.old)) out.old result out.new }
{
    if out.len() < paper::TEXT_ROOM {
        return Err(Refusal::ShortBuffer);
    }
    if !table.is_allowed() {
        return Err(Refusal::NotAllowed);
    }
    let at = spans::copy(HEADER, out);
    Ok(writer::put_lines(table, out, at))
}

// Reads a text: 13 for another first line, then line by line 14, 15, 16, then 18, then 17.
#[tactic(auto, unfolding(crate::specs::Calls::parsing))]
pub fn read(text: &[u8]) -> Backup
    ensures { result ≡ parsing text.now }
{
    match reader::table_in(text) {
        Ok(table) => Backup {
            table,
            verdict: Ok(()),
        },
        Err(why) => Backup {
            table: Table::factory(),
            verdict: Err(why),
        },
    }
}
