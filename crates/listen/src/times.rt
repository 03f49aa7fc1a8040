// The two times of the box's patience.
ghost use Rattle.std.specs.Prelude.{◌≡◌};
ghost use Rattle.listen.specs.Calls.{is_over};

use crate::{Listener, numbers};

impl Listener {
    // Returns whether the time of the request or that of the trailer is over. A clock that goes back is no time passed.
    #[tactic(auto, unfolding(crate::specs::Calls::is_over))]
    pub(crate) fn is_over(self, time: u64) -> bool
        ensures { result ≡ is_over self.begun self.asked time }
    {
        (numbers::REQUEST_TIME <= time.saturating_sub(self.asked))
            | (numbers::TRAILER_TIME <= time.saturating_sub(self.begun))
    }
}
