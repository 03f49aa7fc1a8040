// The yard's sums: how many trailers came out how, and how many Sets their boards confirmed of how many that were due. The numbers are
// those of the followers, and of nothing else. Every call takes anything, and its promise fixes its answer (specs/Calls.antt).
#![tactic(auto)]

ghost use Rattle.std.specs.Prelude.{◌≡◌};
ghost use Rattle.tally.specs.Results.{nothing, tally_allowed};
ghost use Rattle.tally.specs.Results as results;
ghost use Rattle.tally.specs.Calls.{counting, begun_anew};

use follow::{Follower, Standing};
use paper::Refusal;

mod share;
mod sums;

// The most that a count of a tally may be when it is handed in (ours), so that no sum overflows.
const MOST: usize = 1_000_000;

// How many trailers were restored, were equal already, stopped at a Set that the board answered otherwise, gave no answer, and were not
// begun; and of those followed, how many Sets were confirmed and how many were due.
#[derive(Clone, Copy)]
pub struct Tally {
    pub done: usize,
    pub equal: usize,
    pub stopped: usize,
    pub silent: usize,
    pub unbegun: usize,
    pub confirmed: usize,
    pub due: usize,
}

// The tally afterwards, and whether the trailer was counted. The tally is there under a refusal too, for document 01 hands a state back as
// it was.
#[derive(Clone, Copy)]
pub struct Counted {
    pub tally: Tally,
    pub verdict: Result<(), Refusal>,
}

// Returns whether a trailer is begun anew at the end of the round, and so not counted yet: its follower stopped, the board said nothing to
// its last Set, and this is not the last round. A follower that no start and events give never is.
#[tactic(auto, unfolding(crate::specs::Calls::begun_anew))]
pub fn begins_anew(follower: Follower, answered: bool, last: bool) -> bool
    ensures { result ≡ begun_anew follower answered last }
{
    matches!(follower.told().standing, Standing::Stopped(_)) && !answered && !last
}

impl Tally {
    // Returns the tally of no trailer. No derived default: the edits one_done_with_each and set_confirmed_at_start change one line each.
    pub fn nothing() -> Tally
        ensures { result ≡ nothing }
    {
        Tally {
            done: 0,
            equal: 0,
            stopped: 0,
            silent: 0,
            unbegun: 0,
            confirmed: 0,
            due: 0,
        }
    }

    // Returns whether no count is over a million. One test for each count: the edits a_million_refused and over_a_million change one of
    // them each.
    #[tactic(auto, unfolding(crate::specs::Results::tally_allowed))]
    pub fn is_allowed(self) -> bool
        ensures { result ≡ tally_allowed self }
    {
        self.done <= MOST
            && self.equal <= MOST
            && self.stopped <= MOST
            && self.silent <= MOST
            && self.unbegun <= MOST
            && self.confirmed <= MOST
            && self.due <= MOST
    }

    // Counts a trailer whose restore was followed to its end; `answered` says that a follower which stopped heard another answer, and not
    // none. Refuses 12 for a tally with a count over a million, and for a follower that no start and events give or that still waits.
    #[tactic(auto, using(crate::proofs::Counting::share_within), unfolding(crate::specs::Calls::counting))]
    pub fn restored(self, follower: Follower, answered: bool) -> Counted
        ensures { result ≡ counting self (results.restored follower answered) }
    {
        match share::share_of(follower, answered) {
            Some(share) => self.with(share),
            None => self.refused(),
        }
    }

    // Counts a trailer that gave no answer while its settings were asked for. Refuses 12 for a tally with a count over a million.
    #[tactic(auto, unfolding(crate::specs::Calls::counting, crate::specs::Results::fits))]
    pub fn silent(self) -> Counted
        ensures { result ≡ counting self results.silent }
    {
        self.with(Tally {
            silent: 1,
            ..Tally::nothing()
        })
    }

    // Counts a trailer that was not begun: its file was refused, or its serial line could not be opened. Refuses 12 for a tally with a
    // count over a million.
    #[tactic(auto, unfolding(crate::specs::Calls::counting, crate::specs::Results::fits))]
    pub fn not_begun(self) -> Counted
        ensures { result ≡ counting self results.not_begun }
    {
        self.with(Tally {
            unbegun: 1,
            ..Tally::nothing()
        })
    }
}
