ghost use Rattle.std.specs.Prelude.{◌≡◌};
ghost use Rattle.paper.specs.Numbers as paper;
ghost use Rattle.lines.specs.Lines.{adding};
ghost use Rattle.sentences.specs.Texts.{between_text, of_text, numbered_text, refused_text};

use lines::Line;
use paper::Refusal;

// Puts a number between words.
#[tactic(auto, using(lines::proofs::Adding::further), unfolding(crate::specs::Texts::between_text))]
pub(crate) fn put_between(line: Line, before: &[u8], n: usize, after: &[u8]) -> Line
    ensures { result ≡ adding line (between_text before.now n after.now) }
{
    line.put(before).put_number(n).put(after)
}

// Puts how many of how many, between words.
#[tactic(auto, using(lines::proofs::Adding::further), unfolding(crate::specs::Texts::of_text))]
pub(crate) fn put_of(line: Line, before: &[u8], done: usize, due: usize, after: &[u8]) -> Line
    ensures { result ≡ adding line (of_text before.now done due after.now) }
{
    let counted = line.put(before).put_number(done);
    counted.put(b" of ").put_number(due).put(after)
}

// Puts a number of refusal, whatever it is.
pub(crate) fn put_numbered(line: Line, number: u8) -> Line
    ensures { result ≡ adding line (numbered_text number) }
{
    put_between(line, b"refused ", number as usize, b"")
}

// Puts the number of a refusal.
#[tactic(auto, unfolding(crate::specs::Texts::refused_text))]
pub(crate) fn put_refused(line: Line, refusal: Refusal) -> Line
    ensures { result ≡ adding line (refused_text refusal) }
{
    put_numbered(line, refusal.number())
}

// Puts the refusal of a state that no calls of its machine give.
pub(crate) fn put_stray(line: Line) -> Line
    ensures { result ≡ adding line (refused_text paper.not_allowed) }
{
    put_refused(line, Refusal::NotAllowed)
}
