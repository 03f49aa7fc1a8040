// A board's settings by Gets (ours; document 01's follower is the model): a collector asks for each setting in order, takes the numbers
// that the board answers, and gives the table only when every setting was answered. Every call takes anything, and its promise fixes its
// answer (specs/Calls.antt).
#![tactic(auto)]

ghost use Rattle.std.specs.Prelude.{◌≡◌};
ghost use Rattle.reply.specs.Events.{heard, refused_frame, no_answer};
ghost use Rattle.collect.specs.Calls.{starting, told, collecting};

use paper::Refusal;
use place::Intake;
use settings::{COUNT, Setting};
use tables::Table;

mod answer;
mod place;
mod state;

// How many settings were answered, their numbers in the order of the ids, 0 past them, how many times no answer came to the Get of the one
// that is due, and whether it has stopped. Which setting is due, and whether all is done, follows from these.
// The four stay apart, in fixed memory: the law AllowedIsReached speaks of any of them together, and whoever hands in a state that no start
// and events give is refused.
#[derive(Clone, Copy)]
pub struct Collector {
    pub len: usize,
    pub numbers: [u16; COUNT],
    pub silences: usize,
    pub stopped: bool,
}

// How far it is: a setting is asked for; every one was answered; it stopped at a setting; or it is refused. The refusal is a case here and
// no Result: TableIsCarried says of every Stage when it is told.
#[derive(Clone, Copy)]
pub enum Stage {
    Waiting(Setting),
    Done,
    Stopped(Setting),
    Refused(Refusal),
}

// The advanced collector, how far it is, how many settings were answered, and the table: the factory table unless it is done.
// Count and table stand beside the stage, whatever it is: the law RefusedIsStray gives both of a refused collector, and the collector comes
// back beside the outcome, as document 01 wants of a board's methods.
#[derive(Clone, Copy)]
pub struct Collected {
    pub collector: Collector,
    pub stage: Stage,
    pub answered: usize,
    pub table: Table,
}

impl Collector {
    // Returns a collector that asks for the first setting.
    #[tactic(auto, unfolding(crate::specs::Calls::starting, crate::specs::Collecting::begun))]
    pub fn start() -> Collected
        ensures { result ≡ starting }
    {
        Collector {
            len: 0,
            numbers: [0; COUNT],
            silences: 0,
            stopped: false,
        }
        .good()
    }

    // Returns how far a collector is, with nothing heard. Refuses 12 for one that no start and events give.
    #[tactic(auto, unfolding(crate::specs::Calls::told))]
    pub fn told(self) -> Collected
        ensures { result ≡ told self }
    {
        self.after(Intake::Waits)
    }

    // Takes a frame of this command and these data, two parameters as in `heard` of the clause. Only the number of a good Get reply with
    // the due id, in its width and with a number that fits, is taken. Refuses 12 for a collector that no start and events give.
    #[tactic(auto, using(crate::proofs::Moving::waiting_few), unfolding(crate::specs::Calls::collecting, crate::specs::Collecting::advanced))]
    pub fn reply(self, command: u8, bytes: &[u8]) -> Collected
        ensures { result ≡ collecting self (heard command bytes.now) }
    {
        self.after(self.heard(command, bytes))
    }

    // Takes a frame that the stream refused, on which the collector waits on. Refuses 12 for one that no start and events give.
    #[tactic(auto, using(crate::proofs::Moving::collecting_refused))]
    pub fn refused_frame(self) -> Collected
        ensures { result ≡ collecting self refused_frame }
    {
        self.told()
    }

    // Notes that no answer came: the same setting stays due, and the third time in a row stops a collector that waits. Refuses 12 for one
    // that no start and events give.
    #[tactic(auto, unfolding(crate::specs::Calls::collecting, crate::specs::Collecting::advanced, crate::specs::Collecting::intake_of))]
    pub fn no_answer(self) -> Collected
        ensures { result ≡ collecting self no_answer }
    {
        self.after(Intake::Silence)
    }
}
