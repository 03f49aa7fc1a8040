// How a piece of the stream is read, inside a frame and outside one, up to the first byte that ends a frame. The room for 35 bytes stands
// in each contract, and `into` is no array, since each clause (`Gives`) tells what becomes of all of the lent buffer.
ghost use Rattle.std.specs.Prelude.{◌≤◌, ◌≡◌, true, [], length};
ghost use Rattle.laws.specs.Promise.{Gives};
ghost use Rattle.wire.specs.Parsing.{refused, broken_says};
ghost use Rattle.stream.specs.Stream.{inside, ends_frame};
ghost use Rattle.stream.specs.Calls.{allowed, unfinished, heard_of, unheard, ended_as};
ghost use Rattle.stream.specs.declared.Heard.{Heard};

use crate::kinds::FrameEnd;
use crate::{Heard, Held};
use paper::Refusal;

// Refuses a call: the state comes back as it was, and nothing is taken.
pub(crate) fn refused(held: Held, refusal: Refusal) -> Heard
    ensures { result ≡ (unheard held refusal).answer }
{
    Heard {
        held,
        event: Err(refusal),
        taken: 0,
    }
}

// Returns the refusal of a frame that a colon broke after this many characters: 1 if they are over 73, else 2.
fn broken(len: usize) -> Refusal
    ensures { refused result ≡ broken_says len }
{
    if paper::MOST_CHARS < len {
        Refusal::TooLong
    } else {
        Refusal::NoDigit
    }
}

// Ends the frame of some characters by a newline, and parses it, or by a colon, which breaks it and begins the next. Inlined, so that the
// state and the answer are made where they are wanted: as a call it cost a tenth of the instructions.
#[inline(always)]
fn ended(chars: &[u8], by: u8, taken: usize, into: &mut [u8]) -> Heard
    requires { (ends_frame by ≡ true) × (35 ≤ length into.old) }
    ensures { Gives Heard (ended_as (inside chars.now) by taken) into.old result into.new }
{
    if by == paper::COLON {
        return Heard {
            held: Held::begun(),
            event: Err(broken(chars.len())),
            taken,
        };
    }
    Heard {
        held: Held::outside(),
        event: wire::read_chars(chars, into).map(Some),
        taken,
    }
}

// Reads a piece inside a frame: the characters up to the next newline or colon belong to that frame.
fn in_frame(held: Held, piece: &[u8], into: &mut [u8]) -> Heard
    requires { (allowed held ≡ true) × (held.inside ≡ true) × (35 ≤ length into.old) }
    ensures { Gives Heard (heard_of (unfinished held) piece.now) into.old result into.new }
{
    let end = spans::first(piece, FrameEnd);
    let whole = held.with_more(&piece[..end]);
    if end == piece.len() {
        return Heard {
            held: whole,
            event: Ok(None),
            taken: end,
        };
    }
    let chars = whole.chars;
    ended(chars.as_slice(), piece[end], end + 1, into)
}

// Reads a piece right after a colon. A frame that ends within the piece is parsed in place, and nothing of it is held.
fn fresh(piece: &[u8], into: &mut [u8]) -> Heard
    requires { 35 ≤ length into.old }
    ensures { Gives Heard (heard_of (inside []) piece.now) into.old result into.new }
{
    let end = spans::first(piece, FrameEnd);
    if end == piece.len() {
        return Heard {
            held: Held::begun().with_more(piece),
            event: Ok(None),
            taken: end,
        };
    }
    ended(&piece[..end], piece[end], end + 1, into)
}

// Reads a piece from an allowed state with enough room. Outside a frame, all bytes up to the first colon are skipped.
pub(crate) fn heard(held: Held, piece: &[u8], into: &mut [u8]) -> Heard
    requires { (allowed held ≡ true) × (35 ≤ length into.old) }
    ensures { Gives Heard (heard_of (unfinished held) piece.now) into.old result into.new }
{
    if held.inside {
        return in_frame(held, piece, into);
    }
    let skipped = spans::find(piece, paper::COLON);
    if skipped == piece.len() {
        return Heard {
            held,
            event: Ok(None),
            taken: skipped,
        };
    }
    let start = skipped + 1;
    let found = fresh(&piece[start..], into);
    Heard {
        taken: start + found.taken,
        ..found
    }
}
