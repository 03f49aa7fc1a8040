// The restore list: which Sets bring a board from the table that it holds to the one that is wanted, in an order that it accepts. Every
// call takes anything, and its promise fixes its answer and every lent byte (specs/Calls.antt).
#![tactic(auto)]

ghost use Rattle.std.specs.Prelude.{◌≡◌, length};
ghost use Rattle.laws.specs.Promise.{Gives};
ghost use Rattle.restore.specs.Calls.{listing, sets_due, due_in};
ghost use Rattle.restore.specs.Answers.{Listed};

use order::Restore;
use paper::Refusal;
use requests::Wanted;
use tables::Table;

mod order;
mod writer;

// The size of a list: its length in bytes, and its number of Sets. The bytes are the front of the lent buffer, as no heap is used.
#[derive(Clone, Copy, PartialEq, Eq)]
pub struct Size {
    pub len: usize,
    pub sets: usize,
}

// The three calls take two tables and no Restore, which is of allowed ones: their promises speak of any two (`listing`, `sets_due`,
// `due_in`).

// Writes the Sets that turn the table `from` into `to`, frame after frame, to the front of `out`. Refuses 11 under 15 bytes of room for
// each setting, then 12 for a table that is not allowed; then nothing is written.
pub fn list(from: Table, to: Table, out: &mut [u8]) -> Result<Size, Refusal>
    ensures { Gives Listed (listing from to (length out.old)) out.old result out.new }
{
    if out.len() < writer::LIST_ROOM {
        return Err(Refusal::ShortBuffer);
    }
    let restore = Restore::between(from, to)?;
    Ok(writer::put_sets(&restore, out))
}

// Returns how many Sets turn the table `from` into `to`. Refuses 12 for a table that is not allowed.
pub fn sets_due(from: Table, to: Table) -> Result<usize, Refusal>
    ensures { result ≡ sets_due from to }
{
    Ok(Restore::between(from, to)?.len())
}

// Returns the Set that is due once this many before it are done: nothing after the last. Refuses 12 for a table that is not allowed.
pub fn due_after(from: Table, to: Table, done: usize) -> Result<Option<Wanted>, Refusal>
    ensures { result ≡ due_in from to done }
{
    Ok(Restore::between(from, to)?.after(done))
}
