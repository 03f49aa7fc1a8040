// What one trailer adds to the sums.
ghost use Rattle.std.specs.Prelude.{◌≡◌, cond, None};
ghost use Rattle.tally.specs.Results.{restored, ended_as, has_ended, share_of, fits};

use crate::Tally;
use follow::{Follower, Standing};

// Returns the share of one trailer, without its Sets, by how far its follower is: where it stopped, at another answer or at none. A follower
// that has not come to an end has no share.
fn ended_as(standing: Standing, answered: bool) -> Option<Tally>
    ensures { result ≡ cond (has_ended standing) (Some (ended_as standing answered)) None }
{
    let nothing = Tally::nothing();
    match standing {
        Standing::Equal => Some(Tally {
            equal: 1,
            ..nothing
        }),
        Standing::Done => Some(Tally { done: 1, ..nothing }),
        Standing::Stopped(_) if answered => Some(Tally {
            stopped: 1,
            ..nothing
        }),
        Standing::Stopped(_) => Some(Tally {
            silent: 1,
            ..nothing
        }),
        Standing::Waiting(_) | Standing::Refused(_) => None,
    }
}

// Returns the share of one trailer with its Sets, those that its follower counted and those that were due; none where it is not fit to be
// counted.
#[tactic(auto, using(crate::proofs::Counting::fits_told, crate::proofs::Counting::fit_told, crate::proofs::Counting::fit_sets))]
pub(crate) fn share_of(follower: Follower, answered: bool) -> Option<Tally>
    ensures { result ≡ cond (fits (restored follower answered)) (Some (share_of (restored follower answered))) None }
{
    let followed = follower.told();
    let share = ended_as(followed.standing, answered)?;
    let due = restore::sets_due(follower.from, follower.to).ok()?;
    Some(Tally {
        confirmed: followed.confirmed,
        due,
        ..share
    })
}
