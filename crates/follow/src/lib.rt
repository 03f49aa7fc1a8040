// The following of a restore: which Set is due, and how many the board has confirmed. Every call takes anything, and its promise fixes its
// answer (specs/Calls.antt).
#![tactic(auto)]

ghost use Rattle.std.specs.Prelude.{◌≡◌};
ghost use Rattle.reply.specs.Events.{heard, refused_frame, no_answer};
ghost use Rattle.follow.specs.Calls.{starting, told, following};

use effect::Effect;
use paper::Refusal;
use requests::{Request, Wanted};
use tables::Table;

mod effect;
mod state;

// A restore on its way: the two tables that it started from, how many of the list's Sets the board has confirmed, and whether it has
// stopped. What is due, and whether all is done, follows from these. Count and flag stay apart: the laws AllowedIsReached and RefusedIsStray
// speak of any pair of them, and whoever hands in one that no start and events give is refused.
#[derive(Clone, Copy)]
pub struct Follower {
    pub from: Table,
    pub to: Table,
    pub confirmed: usize,
    pub stopped: bool,
}

// How far a restore is: a request is due, always a Set; the tables were equal; all Sets are confirmed; it stopped at a Set; or it is
// refused. The refusal is a case here and no Result: StandingExactly says of every Standing when it is told.
#[derive(Clone, Copy)]
pub enum Standing {
    Waiting(Request),
    Equal,
    Done,
    Stopped(Wanted),
    Refused(Refusal),
}

// The advanced follower, how far it is, and how many Sets are confirmed: 0 where it is refused, by the law RefusedIsStray (document 01: "a
// state handed in comes back as it was, with counts and lengths 0").
#[derive(Clone, Copy)]
pub struct Followed {
    pub follower: Follower,
    pub standing: Standing,
    pub confirmed: usize,
}

impl Follower {
    // Begins to follow the list that turns the table `from` into `to`. Refuses 12 for a table that is not allowed.
    #[tactic(auto, unfolding(crate::specs::Calls::starting))]
    pub fn start(from: Table, to: Table) -> Followed
        ensures { result ≡ starting from to }
    {
        Follower {
            from,
            to,
            confirmed: 0,
            stopped: false,
        }
        .told()
    }

    // Returns how far a follower is, with nothing heard. Refuses 12 for one that no start and events give.
    #[tactic(auto, unfolding(crate::specs::Calls::told))]
    pub fn told(self) -> Followed
        ensures { result ≡ told self }
    {
        self.after(Effect::Waits)
    }

    // Takes a frame of the stream: its command and its data, two parameters as in `heard` of the clause. Refuses 12 for a follower that no
    // start and events give.
    #[tactic(auto, using(crate::proofs::Standings::standing_awaits), unfolding(crate::specs::Calls::following, crate::specs::Following::advanced))]
    pub fn reply(self, command: u8, bytes: &[u8]) -> Followed
        ensures { result ≡ following self (heard command bytes.now) }
    {
        self.after(effect::of_frame(self.standing(), command, bytes))
    }

    // Takes a frame that the stream refused: it says nothing of the Set that is due. Refuses 12 for a follower that no start and events
    // give.
    #[tactic(auto, using(crate::proofs::Standings::following_refused))]
    pub fn refused_frame(self) -> Followed
        ensures { result ≡ following self refused_frame }
    {
        self.told()
    }

    // Notes that the board gave no answer in time, which stops a follower that waits. Refuses 12 for one that no start and events give.
    #[tactic(auto, unfolding(crate::specs::Calls::following, crate::specs::Following::advanced))]
    pub fn no_answer(self) -> Followed
        ensures { result ≡ following self no_answer }
    {
        self.after(effect::of_silence(self.standing()))
    }
}
