ghost use Rattle.std.specs.Prelude.{◌≡◌};
ghost use Rattle.std.specs.Result.{result_unwrap_or};
ghost use Rattle.restore.specs.Calls.{sets_due};
ghost use Rattle.lines.specs.Lines.{adding};
ghost use Rattle.sentences.specs.Texts.{stopped_text, end_text, followed_text, progress_text};

use crate::parts;
use follow::{Follower, Standing};
use lines::Line;

// Puts how far a restore came that stopped.
fn put_stopped(line: Line, confirmed: usize, due: usize) -> Line
    ensures { result ≡ adding line (stopped_text confirmed due) }
{
    let counted = parts::put_of(line, b"stopped: ", confirmed, due, b" settings confirmed, ");
    parts::put_between(
        counted,
        b"",
        due.saturating_sub(confirmed),
        b" not confirmed",
    )
}

// Puts how far a follower is. (The two numbers are those of the clause, `end_text`.)
fn put_end(line: Line, standing: Standing, confirmed: usize, due: usize) -> Line
    ensures { result ≡ adding line (end_text standing confirmed due) }
{
    match standing {
        Standing::Waiting(_) => {
            parts::put_of(line, b"not ended: ", confirmed, due, b" settings confirmed")
        }
        Standing::Equal => line.put(b"equal: nothing to set"),
        Standing::Done => parts::put_of(line, b"done: ", confirmed, due, b" settings confirmed"),
        Standing::Stopped(_) => put_stopped(line, confirmed, due),
        Standing::Refused(refusal) => parts::put_refused(line, refusal),
    }
}

// Returns how many Sets the list of a follower has, and 0 where there is none: its sentence is a refusal then, and prints no number.
fn due_of(follower: Follower) -> usize
    ensures { result ≡ result_unwrap_or (sets_due follower.from follower.to) 0 }
{
    restore::sets_due(follower.from, follower.to).unwrap_or(0)
}

// Puts how many Sets of its list the board has confirmed, by the follower's own count.
#[tactic(auto, using(crate::proofs::Ending::progress_told))]
pub(crate) fn put_confirmed(line: Line, follower: Follower) -> Line
    ensures { result ≡ adding line (progress_text follower) }
{
    if let Standing::Refused(refusal) = follower.told().standing {
        return parts::put_refused(line, refusal);
    }
    parts::put_of(
        line,
        b"",
        follower.confirmed,
        due_of(follower),
        b" confirmed",
    )
}

// Puts how a restore ended, by the follower's own account.
#[tactic(auto, using(crate::proofs::Ending::followed_told))]
pub(crate) fn put_follower(line: Line, follower: Follower) -> Line
    ensures { result ≡ adding line (followed_text follower) }
{
    put_end(
        line,
        follower.told().standing,
        follower.confirmed,
        due_of(follower),
    )
}
