// How a trailer is counted: by its share.
ghost use Rattle.std.specs.Prelude.{◌≡◌, cond};
ghost use Rattle.tally.specs.Results.{tally_allowed, plus};
ghost use Rattle.tally.specs.AsHeld.{Within};
ghost use Rattle.tally.specs.Calls as calls;

use crate::{Counted, Tally};
use paper::Refusal;

impl Tally {
    // Returns the sum of two tallies, count by count. As an `Add` it would be these seven lines with an output type around them, for one
    // use.
    fn plus(self, share: Tally) -> Tally
        requires tally_few { Within self }
        requires share_few { Within share }
        ensures { result ≡ plus self share }
    {
        Tally {
            done: self.done + share.done,
            equal: self.equal + share.equal,
            stopped: self.stopped + share.stopped,
            silent: self.silent + share.silent,
            unbegun: self.unbegun + share.unbegun,
            confirmed: self.confirmed + share.confirmed,
            due: self.due + share.due,
        }
    }

    // Refuses a trailer by 12, with the tally as it was.
    pub(crate) fn refused(self) -> Counted
        ensures { result ≡ calls.uncounted self }
    {
        Counted {
            tally: self,
            verdict: Err(Refusal::NotAllowed),
        }
    }

    // Counts a trailer by its share. Refuses 12 for a tally that is not allowed.
    #[tactic(auto, using(crate::proofs::Counting::within_of))]
    pub(crate) fn with(self, share: Tally) -> Counted
        requires { Within share }
        ensures { result ≡ cond (tally_allowed self) (calls.counted (plus self share)) (calls.uncounted self) }
    {
        if !self.is_allowed() {
            return self.refused();
        }
        Counted {
            tally: self.plus(share),
            verdict: Ok(()),
        }
    }
}
