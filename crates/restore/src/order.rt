// The order of the Sets: ascending id; but where both of a pair differ and the lower id's new number does not agree with the higher's
// present one, the higher goes first.
#![tactic(auto, unfolding(crate::specs::Order::differs))]

ghost use Rattle.std.specs.Prelude.{◌<◌, ◌≡◌, true, false, MatchResult, length};
ghost use Rattle.paper.specs.Numbers.{not_allowed};
ghost use Rattle.settings.specs.Columns.{count};
ghost use Rattle.restore.specs.Order.{differs, higher_first, set_at, due_sets};
ghost use Rattle.restore.specs.Calls.{both_allowed, set_after};

use paper::Refusal;
use requests::Wanted;
use settings::COUNT;
use tables::Table;

// The table that a board holds, and the one that is wanted.
#[derive(Clone, Copy)]
pub(crate) struct Restore {
    from: Table,
    to: Table,
    ghost allowed: { both_allowed from to ≡ true },
}

impl Restore {
    // Returns the restore of one allowed table to another. Refuses 12 for a table that is not allowed.
    pub(crate) fn between(from: Table, to: Table) -> Result<Restore, Refusal>
        ensures { MatchResult result (λ r. (r.from ≡ from) × (r.to ≡ to)) (λ e. (e ≡ not_allowed) × (both_allowed from to ≡ false)) }
    {
        if from.is_allowed() & to.is_allowed() {
            Ok(Restore { from, to })
        } else {
            Err(Refusal::NotAllowed)
        }
    }

    // Returns how many Sets there are. (Here and below a chain over the places was tried: its proof did not close.)
    pub(crate) fn len(&self) -> usize
        ensures { result ≡ length (due_sets self.now.from self.now.to) }
    {
        let mut len = 0;
        for place in 0..COUNT {
            if self.set_at(place).is_some() {
                len += 1;
            }
        }
        len
    }

    // Returns the Set that is due after this many, if there is one.
    pub(crate) fn after(&self, done: usize) -> Option<Wanted>
        ensures { result ≡ set_after (due_sets self.now.from self.now.to) done }
    {
        let mut left = done;
        for place in 0..COUNT {
            if let Some(set) = self.set_at(place) {
                if left == 0 {
                    return Some(set);
                }
                left -= 1;
            }
        }
        None
    }

    // Returns the Set that has its turn at a place, if the setting differs: of that setting, or of its partner where the two change places.
    pub(crate) fn set_at(&self, place: usize) -> Option<Wanted>
        ensures { result ≡ set_at self.now.from self.now.to place }
    {
        let here = settings::at(place)?;
        let exchanged = self.higher_first(place.min(here.partner), place.max(here.partner));
        let setting = if exchanged {
            settings::setting_at(here.partner)
        } else {
            here
        };
        self.differs(setting.index).then_some(Wanted {
            setting,
            number: self.to.numbers[setting.index],
        })
    }

    // Returns whether the higher id of a pair goes first: both differ, and the lower's new number does not agree with the higher's present
    // one. A setting alone, which is its own partner, agrees with any.
    fn higher_first(&self, lower: usize, higher: usize) -> bool
        requires { (lower < count) × (higher < count) }
        ensures { result ≡ higher_first self.now.from self.now.to lower higher }
    {
        self.differs(lower)
            & (self.differs(higher)
                & !settings::allows(lower, self.to.numbers[lower], self.from.numbers[higher]))
    }

    // Returns whether a setting differs between the two tables.
    fn differs(&self, index: usize) -> bool
        requires { index < count }
        ensures { result ≡ differs self.now.from self.now.to index }
    {
        self.from.numbers[index] != self.to.numbers[index]
    }
}
