ghost use Rattle.std.specs.Prelude.{◌≡◌};
ghost use Rattle.lines.specs.Lines.{adding};
ghost use Rattle.sentences.specs.Texts.{refused_as, refusal_text, checked_text};

use crate::{Refused, parts};
use backup::BadText;
use lines::Line;
use settings::COUNT;

// Of a bad text the number of its refusal is told, and the line.
impl From<BadText> for Refused {
    ghost from_gives = { λ bad refused. refused ≡ refused_as bad };

    fn from(bad: BadText) -> Refused {
        Refused {
            number: bad.refusal.number(),
            line: bad.line,
        }
    }
}

// Puts a refusal and, unless it is 0 (document 01's line for 17 and 18), the line of the text that it is about.
#[tactic(auto, using(lines::proofs::Adding::further), unfolding(crate::specs::Texts::refusal_text))]
fn put_refusal(line: Line, why: Refused) -> Line
    ensures { result ≡ adding line (refusal_text why.number why.line) }
{
    let refused = parts::put_numbered(line, why.number);
    if why.line == 0 {
        return refused;
    }
    parts::put_between(refused, b", line ", why.line, b"")
}

// Puts what became of a backup that was checked.
#[tactic(auto, unfolding(crate::specs::Texts::good_text))]
pub(crate) fn put_verdict(line: Line, verdict: Result<(), Refused>) -> Line
    ensures { result ≡ adding line (checked_text verdict) }
{
    match verdict {
        Ok(()) => parts::put_between(
            line,
            b"good: ",
            COUNT,
            b" settings, every number in range, every pair agrees",
        ),
        Err(why) => put_refusal(line, why),
    }
}
