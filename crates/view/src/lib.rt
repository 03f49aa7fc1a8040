// A board's eight read-only values, asked for one after the other: who the board is, and its five readings. Every call takes anything, and
// its promise fixes its answer (specs/Calls.antt). The words of the values are in `sentences`.
#![tactic(auto)]

ghost use Rattle.std.specs.Prelude.{◌≡◌};
ghost use Rattle.reply.specs.Events.{heard, no_answer};
ghost use Rattle.view.specs.Calls.{allowed, starting, viewing};

use paper::Refusal;

mod heard;
mod serial;
mod state;
mod values;

// How many values there are.
pub const COUNT: usize = 8;

// How many ids were answered, how many of them with a value that was understood, and how many times in a row no answer came to the Get of
// the next.
#[derive(Clone, Copy)]
pub struct Viewer {
    pub answered: usize,
    pub understood: usize,
    pub silences: usize,
}

// What is next: the id that is due; nothing, as all were answered, or as no answer came to the Get of this id; or it is refused. The refusal
// is a case here and no Result: the law RefusedIsStray gives the viewer back beside it, as it was.
#[derive(Clone, Copy)]
pub enum Next {
    Waiting(u16),
    Done,
    Silent(u16),
    Refused(Refusal),
}

// What a frame came to: it said nothing of the id that was due; or it answered that id, with a value that is understood or with none.
#[derive(Clone, Copy)]
pub enum Sight {
    Nothing,
    Understood(u16),
    Strange(u16),
}

// The advanced viewer, what is next, and what the frame came to.
#[derive(Clone, Copy)]
pub struct Viewed {
    pub viewer: Viewer,
    pub next: Next,
    pub sight: Sight,
}

impl Viewer {
    // Returns a viewer that asks for the first value.
    pub fn start() -> Viewed
        ensures { result ≡ starting }
    {
        Viewer {
            answered: 0,
            understood: 0,
            silences: 0,
        }
        .told(Sight::Nothing)
    }

    // Returns whether a start and events give the viewer.
    #[tactic(auto, unfolding(crate::specs::Calls::allowed))]
    pub fn is_allowed(self) -> bool
        ensures { result ≡ allowed self }
    {
        self.understood <= self.answered && self.is_within()
    }

    // Takes a frame of this command and these data, two parameters as in `heard` of the clause. A Get reply of the due id moves on, and on
    // any other frame the viewer waits on. Refuses 12 for a viewer that no start and events give.
    #[tactic(auto, unfolding(crate::specs::Calls::viewing, crate::specs::Calls::advanced))]
    pub fn reply(self, command: u8, bytes: &[u8]) -> Viewed
        ensures { result ≡ viewing self (heard command bytes.now) }
    {
        if !self.is_allowed() {
            return self.stray();
        }
        let sight = self.sight_of(command, bytes);
        self.moved(sight).told(sight)
    }

    // Notes that no answer came: the same id stays due, and the third time in a row ends a viewer that waits. Refuses 12 for a viewer that
    // no start and events give.
    #[tactic(auto, unfolding(crate::specs::Calls::viewing, crate::specs::Calls::sight_of))]
    pub fn no_answer(self) -> Viewed
        ensures { result ≡ viewing self no_answer }
    {
        if !self.is_allowed() {
            return self.stray();
        }
        self.after_silence().told(Sight::Nothing)
    }
}
