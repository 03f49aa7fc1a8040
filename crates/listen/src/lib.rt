// The stream from a board, together with the patience of a box that waits for an answer. The caller reads the serial line and a clock, and
// hands in the bytes and the time, in milliseconds from any moment on. Every call takes anything, and its promise fixes its answer and
// every lent byte (specs/Calls.antt).
#![tactic(auto)]

ghost use Rattle.std.specs.Prelude.{◌≡◌, length};
ghost use Rattle.laws.specs.Promise.{Gives};
ghost use Rattle.listen.specs.Calls.{starting, asking, listening};
ghost use Rattle.listen.specs.declared.Listened.{Listened};

use paper::Refusal;
use stream::Held;
use wire::Frame;

mod answer;
mod numbers;
mod times;

// The unfinished frame, and two times: when the trailer was begun, and when the last request was sent.
#[derive(Clone, Copy, PartialEq, Eq)]
pub struct Listener {
    pub held: Held,
    pub begun: u64,
    pub asked: u64,
}

// What a read tells: to wait on; a frame, its data at the front of the lent buffer; a frame that document 01 refuses, 1 to 4; that the
// board gave no answer in time; or the refusal of the call itself, 11 or 12. The call's refusal is one of five: in a Result around the
// other four, a frame's refusal would be within what is good. The laws ReadGivenWhen and OnlyAFrameIsWritten take the five together.
#[derive(Clone, Copy, PartialEq, Eq)]
pub enum Told {
    Nothing,
    Frame(Frame),
    Broken(Refusal),
    NoAnswer,
    Refused(Refusal),
}

// The advanced listener, what it tells, and how many bytes of the piece it took.
#[derive(Clone, Copy, PartialEq, Eq)]
pub struct Listened {
    pub listener: Listener,
    pub told: Told,
    pub taken: usize,
}

impl Listener {
    // Returns a listener outside a frame, for a trailer that is begun at this time, with a request sent.
    pub fn start(time: u64) -> Listener
        ensures { result ≡ starting time }
    {
        Listener {
            held: Held::outside(),
            begun: time,
            asked: time,
        }
    }

    // Notes that a request was sent at this time. The unfinished frame stays, since the rest of it is on its way.
    pub fn asked(mut self, time: u64) -> Listener
        ensures { result ≡ asking self time }
    {
        self.asked = time;
        self
    }

    // Takes the bytes of one read at this time, or what an earlier call did not take of them; none if the read gave none. Where the
    // request's or the trailer's time is over it takes nothing and tells so. Refuses 11 under 35 bytes of room, then 12 for an unfinished
    // frame that no bytes leave.
    #[tactic(auto, unfolding(crate::specs::Calls::listening, crate::specs::Hearing::box_hearing, laws::specs::Promise::overlaid))]
    pub fn read(self, piece: &[u8], time: u64, into: &mut [u8]) -> Listened
        ensures { Gives Listened (listening self piece.now time (length into.old)) into.old result into.new }
    {
        if into.len() < paper::MOST_DATA {
            return self.idle(Told::Refused(Refusal::ShortBuffer));
        }
        if !self.held.is_allowed() {
            return self.idle(Told::Refused(Refusal::NotAllowed));
        }
        if self.is_over(time) {
            return self.idle(Told::NoAnswer);
        }
        self.reported(self.held.hear(piece, into))
    }
}
