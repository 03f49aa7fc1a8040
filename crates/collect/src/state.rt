// The states of a collector: which are allowed, and how one follows from another.
ghost use Rattle.std.specs.Prelude.{◌≤◌, ◌<◌, ◌≡◌, cond, ltb};
ghost use Rattle.settings.specs.Columns.{count};
ghost use Rattle.reply.specs.Events.{heard};
ghost use Rattle.collect.specs.Collecting as spec;
ghost use Rattle.collect.specs.Calls as calls;
ghost use Rattle.collect.specs.declared.place.Intake.{Intake};

use crate::place::{Intake, Place};
use crate::{Collected, Collector};
use reply::MOST_TRIES;
use settings::COUNT;

// (Four contracts bound `self.len`, two of them by COUNT itself: a Place is inside the table, so it cannot stand for these.)
impl Collector {
    // Returns whether no more settings are answered than there are, fewer where it stopped, and there were no more silences than there can
    // be.
    fn is_within(self) -> bool
        ensures { result ≡ spec.within self.len self.silences self.stopped }
    {
        if self.stopped {
            self.len < COUNT && self.silences <= MOST_TRIES
        } else if self.len < COUNT {
            self.silences < MOST_TRIES
        } else {
            self.len == COUNT && self.silences == 0
        }
    }

    // Returns whether every number answered fits those before it. (`all` over the places was tried: its proof did not close.)
    #[tactic(auto, unfolding(crate::specs::Collecting::all_fit))]
    fn all_fit(self) -> bool
        requires { self.len ≤ count }
        ensures { result ≡ spec.all_fit self.numbers self.len }
    {
        let numbers = self.numbers;
        let mut all = true;
        for index in 0..self.len {
            all &= Place { numbers, index }.is_fit(numbers[index]);
        }
        all
    }

    // Returns whether all numbers past those answered are 0, so that a state has one form. (`all` over the rest was tried: its proof
    // did not close.)
    #[tactic(auto, using(laws::proofs::Lists::part_to_end))]
    fn none_after(self) -> bool
        requires { self.len ≤ count }
        ensures { result ≡ spec.none_after self.numbers self.len }
    {
        let rest = &self.numbers[self.len..];
        let mut all = true;
        for n in rest {
            all &= 0 == *n;
        }
        all
    }

    // Returns whether a start and events give the collector.
    #[tactic(auto, using(crate::proofs::Moving::few_answered), unfolding(crate::specs::Collecting::allowed))]
    fn is_allowed(self) -> bool
        ensures { result ≡ spec.allowed self }
    {
        self.is_within() && self.all_fit() && self.none_after()
    }

    // Returns whether a setting is due.
    #[tactic(auto, unfolding(crate::specs::Collecting::is_waiting))]
    fn is_waiting(self) -> bool
        ensures { result ≡ spec.is_waiting self }
    {
        !self.stopped && self.len < COUNT
    }

    // Returns a collector with one more number answered.
    #[tactic(auto, unfolding(crate::specs::Collecting::took))]
    fn took(mut self, number: u16) -> Collector
        requires { self.len < count }
        ensures { result ≡ spec.took self number }
    {
        self.numbers[self.len] = number;
        Collector {
            len: self.len + 1,
            silences: 0,
            ..self
        }
    }

    // Returns a collector to whose Get no answer came once more. The third time it stops: it holds that in its flag, while a viewer ends by
    // the count itself (`view`). Each AllowedIsReached speaks of its own states, so the two share no more than the number of tries.
    #[tactic(auto, unfolding(crate::specs::Collecting::silenced))]
    fn silenced(self) -> Collector
        ensures { result ≡ spec.silenced self }
    {
        let silences = self.silences.min(MOST_TRIES - 1) + 1;
        Collector {
            silences,
            stopped: MOST_TRIES <= silences,
            ..self
        }
    }

    // Returns a collector that waited, after what came to its Get. The count of one that stops stays, so that the setting that was due can be
    // named.
    #[tactic(auto, unfolding(crate::specs::Collecting::halted))]
    fn moved(self, intake: Intake) -> Collector
        requires { self.len < count }
        ensures { result ≡ spec.moved self intake }
    {
        match intake {
            Intake::Takes(number) => self.took(number),
            Intake::Stops => Collector {
                stopped: true,
                ..self
            },
            Intake::Waits => self,
            Intake::Silence => self.silenced(),
        }
    }

    // Returns what a frame does while a setting is left.
    pub(crate) fn heard(self, command: u8, bytes: &[u8]) -> Intake
        ensures { result ≡ cond (ltb self.len count) (spec.intake_of self.numbers self.len (heard command bytes.now)) Intake.Waits }
    {
        if self.len >= COUNT {
            return Intake::Waits;
        }
        let numbers = self.numbers;
        let due = Place {
            numbers,
            index: self.len,
        };
        due.of_frame(command, bytes)
    }

    // Returns the answer of any collector, after what came to its Get. An ended one stays as it was. Refuses 12 for one that no start and
    // events give.
    #[tactic(auto, using(crate::proofs::Moving::waiting_few))]
    pub(crate) fn after(self, intake: Intake) -> Collected
        ensures { result ≡ cond (spec.allowed self) (calls.good (cond (spec.is_waiting self) (spec.moved self intake) self)) (calls.stray self) }
    {
        if !self.is_allowed() {
            return self.stray();
        }
        if !self.is_waiting() {
            return self.good();
        }
        self.moved(intake).good()
    }
}
