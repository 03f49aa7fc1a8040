// What is told of a collector.
ghost use Rattle.std.specs.Prelude.{◌≡◌};
ghost use Rattle.collect.specs.Calls as spec;

use crate::{Collected, Collector, Stage};
use paper::Refusal;
use settings::COUNT;
use tables::Table;

impl Collector {
    // Returns how far a collector is: a setting is due, or was when it stopped; or every one was answered.
    #[tactic(auto, unfolding(settings::specs::Calls::placing))]
    fn stage(self) -> Stage
        ensures { result ≡ spec.stage_of self.len self.stopped }
    {
        match settings::at(self.len) {
            Some(due) if self.stopped => Stage::Stopped(due),
            Some(due) => Stage::Waiting(due),
            None => Stage::Done,
        }
    }

    // Returns the table, or the factory table unless every setting was answered.
    fn table(self) -> Table
        ensures { result ≡ spec.table_of self.len self.numbers }
    {
        if self.len < COUNT {
            Table::factory()
        } else {
            let numbers = self.numbers;
            Table { numbers }
        }
    }

    // Returns the answer of an allowed collector.
    #[tactic(auto, unfolding(crate::specs::Calls::good))]
    pub(crate) fn good(self) -> Collected
        ensures { result ≡ spec.good self }
    {
        Collected {
            collector: self,
            stage: self.stage(),
            answered: self.len,
            table: self.table(),
        }
    }

    // Refuses a collector that is not allowed by 12: it is as it was, and nothing is counted.
    #[tactic(auto, unfolding(crate::specs::Calls::stray))]
    pub(crate) fn stray(self) -> Collected
        ensures { result ≡ spec.stray self }
    {
        Collected {
            collector: self,
            stage: Stage::Refused(Refusal::NotAllowed),
            answered: 0,
            table: Table::factory(),
        }
    }
}
