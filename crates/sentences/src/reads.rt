// A board whose settings were read, and the file for them.
ghost use Rattle.std.specs.Prelude.{◌≡◌};
ghost use Rattle.lines.specs.Lines.{adding};
ghost use Rattle.sentences.specs.Texts.{read_text, kept_text, file_text, collected_text, saved_text};

use crate::{Kept, parts};
use collect::{Collected, Collector, Stage};
use lines::Line;
use settings::COUNT;

// Puts how many settings were read, by how far a collector is. (The two numbers are those of the clause, `read_text`.)
fn put_read(line: Line, stage: Stage, answered: usize, due: usize) -> Line
    ensures { result ≡ adding line (read_text stage answered due) }
{
    match stage {
        Stage::Waiting(_) => parts::put_of(line, b"not ended: ", answered, due, b" settings read"),
        Stage::Done => parts::put_between(line, b"all ", answered, b" settings read"),
        Stage::Stopped(_) => parts::put_of(line, b"stopped: ", answered, due, b" settings read"),
        Stage::Refused(refusal) => parts::put_refused(line, refusal),
    }
}

// Puts how far a collector came, by its own account and count.
#[tactic(auto, unfolding(crate::specs::Texts::collected_text))]
pub(crate) fn put_collector(line: Line, collector: Collector) -> Line
    ensures { result ≡ adding line (collected_text collector) }
{
    let Collected {
        stage,
        answered,
        ..
    } = collector.told();
    put_read(line, stage, answered, COUNT)
}

// Puts what became of a file with this many settings.
fn put_kept(line: Line, kept: Kept, count: usize) -> Line
    ensures { result ≡ adding line (kept_text kept count) }
{
    match kept {
        Kept::Not => line.put(b"not saved: the file is as it was"),
        Kept::Unsure => line.put(b"not sure: a power cut may bring the old file back"),
        Kept::Whole => parts::put_between(line, b"saved: ", count, b" settings"),
    }
}

// Puts what became of a file, by how far the collector came: it can be saved only where every setting was read.
fn put_file(line: Line, stage: Stage, answered: usize, kept: Kept) -> Line
    ensures { result ≡ adding line (file_text stage answered kept) }
{
    match stage {
        Stage::Done => put_kept(line, kept, answered),
        Stage::Waiting(_) | Stage::Stopped(_) => {
            line.put(b"not saved: not every setting was read")
        }
        Stage::Refused(refusal) => parts::put_refused(line, refusal),
    }
}

// Puts whether the settings of a collector are saved.
#[tactic(auto, unfolding(crate::specs::Texts::saved_text))]
pub(crate) fn put_saved(line: Line, collector: Collector, kept: Kept) -> Line
    ensures { result ≡ adding line (saved_text collector kept) }
{
    let Collected {
        stage,
        answered,
        ..
    } = collector.told();
    put_file(line, stage, answered, kept)
}
