// The follower's state: whether it is one that a start and events give, how far it is, and what the effect of an event makes of it.
ghost use Rattle.std.specs.Prelude.{◌≡◌, true, cond};
ghost use Rattle.follow.specs.Following.{standing, moved, follower_allowed};
ghost use Rattle.follow.specs.Calls as calls;

use crate::effect::Effect;
use crate::{Followed, Follower, Standing};
use paper::Refusal;
use requests::Request;

impl Follower {
    // Returns whether a start and events give this follower: the list has as many Sets as are confirmed, and one more where it stopped.
    #[tactic(auto, unfolding(crate::specs::Following::follower_allowed, restore::specs::Calls::sets_due))]
    fn is_allowed(self) -> bool
        ensures { result ≡ follower_allowed self }
    {
        match restore::sets_due(self.from, self.to) {
            Ok(due) if self.stopped => self.confirmed < due,
            Ok(due) => self.confirmed <= due,
            Err(_) => false,
        }
    }

    // Returns how far a follower is: a Set is due, or was when it stopped; there never was one; or all are confirmed.
    #[tactic(auto, unfolding(crate::specs::Following::standing))]
    pub(crate) fn standing(self) -> Standing
        ensures { result ≡ standing self }
    {
        match restore::due_after(self.from, self.to, self.confirmed) {
            Ok(Some(due)) if self.stopped => Standing::Stopped(due),
            Ok(Some(due)) => Standing::Waiting(Request::Set(due)),
            Ok(None) if self.confirmed == 0 => Standing::Equal,
            Ok(None) => Standing::Done,
            Err(refusal) => Standing::Refused(refusal),
        }
    }

    // Returns a follower after the effect of an event.
    #[tactic(auto, using(crate::proofs::Standings::confirmed_few))]
    fn moved_by(self, effect: Effect) -> Follower
        requires { follower_allowed self ≡ true }
        ensures { result ≡ moved self effect }
    {
        match effect {
            Effect::Confirms => Follower {
                confirmed: self.confirmed + 1,
                ..self
            },
            Effect::Stops => Follower {
                stopped: true,
                ..self
            },
            Effect::Waits => self,
        }
    }

    // Returns the answer of any follower, after an event of this effect. Refuses 12 for one that no start and events give: it is as it was,
    // and nothing is counted.
    pub(crate) fn after(self, effect: Effect) -> Followed
        ensures { result ≡ cond (follower_allowed self) (calls.answered (moved self effect)) (calls.unanswered self) }
    {
        if !self.is_allowed() {
            return Followed {
                follower: self,
                standing: Standing::Refused(Refusal::NotAllowed),
                confirmed: 0,
            };
        }
        let follower = self.moved_by(effect);
        Followed {
            follower,
            standing: follower.standing(),
            confirmed: follower.confirmed,
        }
    }
}
