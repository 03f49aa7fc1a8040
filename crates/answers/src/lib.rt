// What a board answers to a whole frame, from what it is and holds. Every call takes anything, and its promise fixes its answer
// (specs/Calls.antt).
#![tactic(auto, unfolding(crate::specs::AsHeld::decided_of))]

ghost use Rattle.std.specs.Prelude.{◌≡◌, true};
ghost use Rattle.who.specs.Parts.{identity_allowed};
ghost use Rattle.answers.specs.Answers.{core_allowed};
ghost use Rattle.answers.specs.AsHeld.{decided_of};
ghost use Rattle.answers.specs.Calls.{answering};

use paper::{MOST_DATA, Refusal};
use spans::Few;
use tables::Table;
use who::{Identity, Readings};

mod decisions;
mod gets;
mod known;
mod messages;
mod sets;

// What a board is and holds, whatever its serial line has brought: who it is, its settings and its readings.
#[derive(Clone, Copy, PartialEq, Eq)]
pub struct Core {
    pub identity: Identity,
    pub table: Table,
    pub readings: Readings,
}

// What became of a piece of input: no frame ended, or what the board did about the one that did. Document 01 lists these five as the
// outcomes, the refusal's number among them, so there is no Result of the other four.
#[derive(Clone, Copy, PartialEq, Eq)]
pub enum Outcome {
    Nothing,
    Answered,
    Restarted,
    Ignored,
    Refused(Refusal),
}

// A command, and its data.
#[derive(Clone, Copy, PartialEq, Eq)]
pub struct Message {
    pub command: u8,
    pub bytes: Few<MOST_DATA>,
}

// What is sent in reply: nothing, a message in a frame, or the error frame.
#[derive(Clone, Copy, PartialEq, Eq)]
pub enum Sends {
    Nothing,
    Frame(Message),
    Error,
}

// What a board decides: the outcome, what it sends, and what it is and holds afterwards.
#[derive(Clone, Copy, PartialEq, Eq)]
pub struct Decided {
    pub outcome: Outcome,
    pub sends: Sends,
    pub core: Core,
}

impl Core {
    // Returns whether identity and settings are allowed; readings at their widths always are.
    #[tactic(auto, unfolding(crate::specs::Answers::core_allowed))]
    pub fn is_allowed(self) -> bool
        ensures { result ≡ core_allowed self }
    {
        self.identity.is_allowed() & self.table.is_allowed()
    }
}

// A core whose identity is allowed, so that its read-only values fit a reply.
#[derive(Clone, Copy)]
pub(crate) struct Sound {
    pub(crate) core: Core,
    ghost sound: { identity_allowed core.identity ≡ true },
}

// Returns the answer to a whole frame: 12 for an identity or a table that is not allowed, then 5 to 10. Command and data are two
// parameters, as document 01 says "from command and data"; `Message` holds its data, and these are lent.
#[tactic(auto, unfolding(crate::specs::Calls::answering, crate::specs::Answers::core_allowed))]
pub fn answer(core: Core, command: u8, bytes: &[u8]) -> Decided
    ensures { result ≡ decided_of (answering core command bytes.now) }
{
    if !core.is_allowed() {
        return core.silent(Outcome::Refused(Refusal::NotAllowed));
    }
    Sound { core }.answer(command, bytes)
}
