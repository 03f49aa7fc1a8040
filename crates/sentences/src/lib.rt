// The sentences that claim something: how a restore and a yard's night ended, how many settings of a board were read, what became of a
// file, and what a board's values are. Each takes whole the machine whose work it tells; for one that no calls give the sentence is
// "refused 12", but `seen` then says nothing. Every call takes anything, and its promise fixes its answer (specs/Texts.antt,
// specs/Values.antt).
#![tactic(auto)]

ghost use Rattle.std.specs.Prelude.{◌≡◌};
ghost use Rattle.lines.specs.Lines.{line_of};
ghost use Rattle.sentences.specs.Texts.{followed_text, progress_text, collected_text, saved_text, checked_text, numbered, summed_text};
ghost use Rattle.sentences.specs.Values.{seen_text, shown_text};

use backup::BadText;
use collect::Collector;
use follow::Follower;
use lines::Line;
use tally::Tally;
use view::{Sight, Viewer};

mod checks;
mod ends;
mod parts;
mod reads;
mod sums;
mod values;

// What became of the file for a board's settings, as the caller says: it is as it was; it has the new text, but a power cut may undo that;
// or it has the new text on the disk.
#[derive(Clone, Copy, PartialEq, Eq)]
pub enum Kept {
    Not,
    Unsure,
    Whole,
}

// Why a text is refused: the number of the refusal, which may be any, and the line that it is about, 0 for none. A number and no Refusal: the
// law RefusalIsTold speaks of every one.
#[derive(Clone, Copy, PartialEq, Eq)]
pub struct Refused {
    pub number: u8,
    pub line: usize,
}

// Returns the sentence for how a restore ended, with how many of its Sets the board has confirmed.
#[tactic(auto, using(lines::proofs::Adding::from_start))]
pub fn followed(follower: Follower) -> Line
    ensures { result ≡ line_of (followed_text follower) }
{
    ends::put_follower(Line::start(), follower)
}

// Returns the sentence for how many Sets of a restore are confirmed, by the follower's own count.
#[tactic(auto, using(lines::proofs::Adding::from_start))]
pub fn progress(follower: Follower) -> Line
    ensures { result ≡ line_of (progress_text follower) }
{
    ends::put_confirmed(Line::start(), follower)
}

// Returns the sentence for how many settings of a board were read, and whether all.
#[tactic(auto, using(lines::proofs::Adding::from_start))]
pub fn collected(collector: Collector) -> Line
    ensures { result ≡ line_of (collected_text collector) }
{
    reads::put_collector(Line::start(), collector)
}

// Returns the sentence for whether the settings that were read are saved: only where every one was read.
#[tactic(auto, using(lines::proofs::Adding::from_start))]
pub fn saved(collector: Collector, kept: Kept) -> Line
    ensures { result ≡ line_of (saved_text collector kept) }
{
    reads::put_saved(Line::start(), collector, kept)
}

// Returns the sentence for a backup: good, or the number of its refusal and the line.
#[tactic(auto, using(lines::proofs::Adding::from_start))]
pub fn checked(verdict: Result<(), Refused>) -> Line
    ensures { result ≡ line_of (checked_text verdict) }
{
    checks::put_verdict(Line::start(), verdict)
}

// Returns the sentence for what `backup` says of a text, by the number of its refusal.
pub fn judged(verdict: Result<(), BadText>) -> Line
    ensures { result ≡ line_of (checked_text (numbered verdict)) }
{
    match verdict {
        Ok(()) => checked(Ok(())),
        Err(bad) => checked(Err(Refused::from(bad))),
    }
}

// Returns the sums of a yard: how many boards ended in which way, and how many settings were confirmed.
#[tactic(auto, using(lines::proofs::Adding::from_start))]
pub fn summed(tally: Tally) -> Line
    ensures { result ≡ line_of (summed_text tally) }
{
    sums::put_sums(Line::start(), tally)
}

// Returns what a frame (its command and its data, as in the clause) says to a viewer of the value that is due, in its unit; an empty line
// where it says nothing of it.
pub fn seen(viewer: Viewer, command: u8, bytes: &[u8]) -> Line
    ensures { result ≡ line_of (seen_text viewer command bytes.now) }
{
    match viewer.reply(command, bytes).sight {
        Sight::Nothing => Line::start(),
        Sight::Understood(id) => values::put_words(Line::start(), id, &bytes[paper::FRONT..]),
        Sight::Strange(id) => values::put_strange(Line::start(), id),
    }
}

// Returns the sentence for how many values were shown, by the viewer's own count.
#[tactic(auto, using(lines::proofs::Adding::from_start), unfolding(crate::specs::Values::shown_text))]
pub fn shown(viewer: Viewer) -> Line
    ensures { result ≡ line_of (shown_text viewer) }
{
    if !viewer.is_allowed() {
        return parts::put_stray(Line::start());
    }
    parts::put_of(
        Line::start(),
        b"shown: ",
        viewer.understood,
        view::COUNT,
        b" values",
    )
}
