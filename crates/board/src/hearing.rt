// What a board does about a piece of input: what happened on the stream, what is decided about it, and what is sent.
ghost use Rattle.std.specs.Prelude.{◌≡◌, true, ℕ, ◌≤◌, length, IfOk, IfSome};
ghost use Rattle.laws.specs.Promise.{Gives};
ghost use Rattle.answers.specs.Answers.{core_allowed};
ghost use Rattle.paper.specs.Numbers.{most_data};
ghost use Rattle.answers.specs.AsHeld.{sends_of, decided_of};
ghost use Rattle.board.specs.AsHeld.{whole, sent_bytes, Sendable, fault_reply, heeding, heard_if_held};
ghost use Rattle.board.specs.declared.Answered.{Answered};

use crate::{Answered, Board};
use answers::{Core, Decided, Outcome, Sends};
use paper::Refusal;
use stream::Heard;
use wire::Frame;

// Returns what is sent for a refusal of the stream: the error frame for a frame that is refused (1 to 4), and nothing under 12, which is of the
// unfinished frame.
fn fault_reply(refusal: Refusal) -> Sends
    ensures { result ≡ sends_of (fault_reply refusal) }
{
    match refusal {
        Refusal::NotAllowed => Sends::Nothing,
        _ => Sends::Error,
    }
}

// Decides about an event of the stream; a frame's data are at the front of `bytes`.
#[tactic(auto, unfolding(answers::specs::Calls::answering, answers::specs::AsHeld::decided_of))]
fn decided(
    core: Core,
    event: Result<Option<Frame>, Refusal>,
    bytes: &[u8; paper::MOST_DATA],
) -> Decided
    requires allowed { core_allowed core ≡ true }
    requires within { IfOk event (λ ended. IfSome ended (λ frame. frame.len ≤ most_data)) }
    ensures { result ≡ decided_of (heeding core event bytes.now) }
{
    match event {
        Ok(Some(frame)) => answers::answer(core, frame.command, &bytes[..frame.len]),
        Ok(None) => Decided {
            outcome: Outcome::Nothing,
            sends: Sends::Nothing,
            core,
        },
        Err(refusal) => Decided {
            outcome: Outcome::Refused(refusal),
            sends: fault_reply(refusal),
            core,
        },
    }
}

// Writes what is sent at the buffer's front, and returns its length.
fn put(sends: Sends, out: &mut [u8]) -> usize
    requires room { 75 ≤ length out.old }
    requires fits { Sendable sends }
    ensures { Gives ℕ (whole (sent_bytes sends)) out.old result out.new }
{
    match sends {
        Sends::Nothing => 0,
        Sends::Frame(message) => {
            wire::write_frame(message.command, message.bytes.as_slice(), out).unwrap()
        }
        Sends::Error => spans::copy(b":4AAAAFD\n", out),
    }
}

// Hears a piece of input at a board whose identity and settings are allowed. An unfinished frame that is not allowed is not asked about
// here: the stream refuses it by 12, hands it back as it was, and takes nothing.
pub(crate) fn heard(board: Board, piece: &[u8], out: &mut [u8]) -> Answered
    requires room { 75 ≤ length out.old }
    requires allowed { core_allowed board.core ≡ true }
    ensures { Gives Answered (heard_if_held board piece.now) out.old result out.new }
{
    let mut bytes = [0u8; paper::MOST_DATA];
    let Heard { held, event, taken } = board.held.hear(piece, &mut bytes);
    let Decided {
        outcome,
        sends,
        core,
    } = decided(board.core, event, &bytes);
    Answered {
        board: Board { core, held },
        outcome,
        len: put(sends, out),
        taken,
    }
}
