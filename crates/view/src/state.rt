// The states of a viewer: what is told of one, and how one follows from another.
ghost use Rattle.std.specs.Prelude.{◌≡◌, true};
ghost use Rattle.reply.specs.Events.{heard, no_answer};
ghost use Rattle.view.specs.Calls as calls;

use crate::{COUNT, Next, Sight, Viewed, Viewer, heard};
use paper::Refusal;
use reply::MOST_TRIES;

// The ids in the order in which they are asked for. They are numbers and no enum, as in the law CountsAreTrue,
// which is of `read_only_ids`.
const IDS: [u16; COUNT] = [
    paper::PRODUCT_ID,
    paper::SERIAL_ID,
    paper::VERSION_ID,
    paper::VOLTAGE_ID,
    paper::CURRENT_ID,
    paper::FINE_ID,
    paper::CONSUMED_ID,
    paper::CHARGE_ID,
];

impl Viewer {
    // Returns whether no more ids are answered than there are, and there were no more silences in a row than there can be.
    pub(crate) fn is_within(self) -> bool
        ensures { result ≡ calls.within self.answered self.silences }
    {
        if self.answered < COUNT {
            self.silences <= MOST_TRIES
        } else {
            self.answered == COUNT && self.silences == 0
        }
    }

    // Returns what is next: for the first id that was not answered, or that all were.
    fn next(self) -> Next
        ensures { result ≡ calls.next_of self }
    {
        match IDS.get(self.answered) {
            Some(&id) if self.silences < MOST_TRIES => Next::Waiting(id),
            Some(&id) => Next::Silent(id),
            None => Next::Done,
        }
    }

    // Returns what is told of an allowed viewer.
    pub(crate) fn told(self, sight: Sight) -> Viewed
        ensures { result ≡ calls.told self sight }
    {
        Viewed {
            viewer: self,
            next: self.next(),
            sight,
        }
    }

    // Refuses a viewer that is not allowed by 12, and gives it back as it was.
    pub(crate) fn stray(self) -> Viewed
        ensures { result ≡ calls.stray self }
    {
        Viewed {
            viewer: self,
            next: Next::Refused(Refusal::NotAllowed),
            sight: Sight::Nothing,
        }
    }

    // Returns what a frame comes to, which is nothing where no id is due.
    #[tactic(auto, unfolding(crate::specs::Calls::sight_of, crate::specs::Calls::is_waiting))]
    pub(crate) fn sight_of(self, command: u8, bytes: &[u8]) -> Sight
        ensures { result ≡ calls.sight_of self (heard command bytes.now) }
    {
        match self.next() {
            Next::Waiting(id) => heard::on_frame(id, command, bytes),
            _ => Sight::Nothing,
        }
    }

    // Returns a viewer with what a frame came to counted in.
    #[tactic(auto, using(crate::proofs::Counting::few_answered, crate::proofs::Counting::few_understood))]
    pub(crate) fn moved(self, sight: Sight) -> Viewer
        requires { calls.allowed self ≡ true }
        ensures { result ≡ calls.moved self sight }
    {
        match sight {
            Sight::Nothing => self,
            Sight::Understood(_) => Viewer {
                answered: self.answered + 1,
                understood: self.understood + 1,
                silences: 0,
            },
            Sight::Strange(_) => Viewer {
                answered: self.answered + 1,
                silences: 0,
                ..self
            },
        }
    }

    // Returns a viewer to whose Get no answer came. An ended one stays as it was. This is not `silenced` of `collect`: AllowedIsReached speaks
    // here of the count alone, which tells an ended one, and there of a flag beside it.
    #[tactic(auto, unfolding(crate::specs::Calls::advanced, crate::specs::Calls::is_waiting))]
    pub(crate) fn after_silence(self) -> Viewer
        ensures { result ≡ calls.advanced self no_answer }
    {
        match self.next() {
            Next::Waiting(_) => Viewer {
                silences: self.silences + 1,
                ..self
            },
            _ => self,
        }
    }
}
