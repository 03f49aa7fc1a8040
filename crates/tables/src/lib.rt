// A board's settings: the numbers of all of them, and what a Set makes of them. Every call takes anything, and its promise fixes its
// answer (specs/Calls.antt).
#![tactic(auto, unfolding(crate::specs::Rules::allowed))]

ghost use Rattle.std.specs.Prelude.{◌≡◌};
ghost use Rattle.tables.specs.Rules.{factory, allowed};
ghost use Rattle.tables.specs.Calls.{set_to};

use paper::Refusal;
use settings::COUNT;

// The numbers of all settings, in the order of the ids.
#[derive(Clone, Copy, PartialEq, Eq)]
pub struct Table {
    pub numbers: [u16; COUNT],
}

// Why a Set is refused and, with 10, the nearest allowed number. Beside 12 it is 0, which the law SetGivenWhen states.
#[derive(Clone, Copy, PartialEq, Eq)]
pub struct Denied {
    pub refusal: Refusal,
    pub nearest: u16,
}

// The answer to a Set, and the table afterwards. The table is there under a refusal too, for document 01 hands a state back as it was.
#[derive(Clone, Copy, PartialEq, Eq)]
pub struct Change {
    pub answer: Result<(), Denied>,
    pub table: Table,
}

// Why a table that is not allowed takes no Set, and why there is none at a place past it.
const STRAY: Denied = Denied {
    refusal: Refusal::NotAllowed,
    nearest: 0,
};

impl Table {
    // Returns the factory table.
    pub fn factory() -> Table
        ensures { result ≡ factory }
    {
        Table {
            numbers: settings::factory_numbers(),
        }
    }

    // Returns whether every number is in its own range and every pair agrees.
    pub fn is_allowed(self) -> bool
        ensures { result ≡ allowed self }
    {
        settings::all_allowed(self.numbers)
    }

    // Sets one setting: accepted with the new table, or refused 10 with the nearest allowed number; 12 for a table that is not allowed or a
    // place past its end.
    pub fn set(self, index: usize, number: u16) -> Change
        ensures { result ≡ set_to self index number }
    {
        let mut table = self;
        let answer = table.store(index, number);
        Change { answer, table }
    }

    // Stores a number where it is allowed. The nearest one is there to be named: the partner's number is in its own range.
    fn store(&mut self, index: usize, number: u16) -> Result<(), Denied>
        ensures { (record { answer = result; table = self.new }) ≡ set_to self.old index number }
    {
        if !self.is_allowed() {
            return Err(STRAY);
        }
        let setting = settings::at(index).ok_or(STRAY)?;
        let partner = self.numbers[setting.partner];
        if !settings::allows(index, number, partner) {
            let nearest = settings::nearest(setting.id, number, partner).unwrap();
            return Err(Denied {
                refusal: Refusal::NumberNotAllowed,
                nearest,
            });
        }
        self.numbers[index] = number;
        Ok(())
    }
}
