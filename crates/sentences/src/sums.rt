ghost use Rattle.std.specs.Prelude.{◌≡◌};
ghost use Rattle.lines.specs.Lines.{adding};
ghost use Rattle.sentences.specs.Texts.{ended_text, counts_text, summed_text};

use crate::parts;
use lines::Line;
use tally::Tally;

// Puts how many boards were done, equal and stopped.
#[tactic(auto, using(lines::proofs::Adding::further))]
fn put_ended(line: Line, tally: Tally) -> Line
    ensures { result ≡ adding line (ended_text tally) }
{
    let line = parts::put_between(line, b"yard: ", tally.done, b" done, ");
    let line = parts::put_between(line, b"", tally.equal, b" equal, ");
    parts::put_between(line, b"", tally.stopped, b" stopped, ")
}

// Puts how many boards ended in which way, and how many settings were confirmed of those that were due.
fn put_counts(line: Line, tally: Tally) -> Line
    ensures { result ≡ adding line (counts_text tally) }
{
    let line = put_ended(line, tally);
    let line = parts::put_between(line, b"", tally.silent, b" silent, ");
    let line = parts::put_between(line, b"", tally.unbegun, b" not begun; ");
    parts::put_of(
        line,
        b"",
        tally.confirmed,
        tally.due,
        b" settings confirmed",
    )
}

// Puts the sums of a tally, or its refusal where it is not allowed.
#[tactic(auto, unfolding(crate::specs::Texts::summed_text))]
pub(crate) fn put_sums(line: Line, tally: Tally) -> Line
    ensures { result ≡ adding line (summed_text tally) }
{
    if !tally.is_allowed() {
        return parts::put_stray(line);
    }
    put_counts(line, tally)
}
