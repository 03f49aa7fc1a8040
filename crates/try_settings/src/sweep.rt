// All wished numbers of one setting beside one number of its partner: `nearest` and `set`, compared with a plain search that goes up
// through the numbers. What is accepted is what `set` accepts; the printed line shows it as runs.
use paper::Refusal;
use settings::Setting;
use std::io;
use tables::{Change, Denied, Table};

// How many wished numbers there are.
const WISHED: usize = 65536;

// A setting beside its partner's number, which is unused where it has none. The two of a pair both hold that number in the table, since
// equal numbers agree.
#[derive(Clone, Copy)]
pub struct Case {
    pub table: Table,
    pub setting: Setting,
    pub partner: u16,
}

impl Case {
    // Prints the line of one sweep.
    pub fn line(self, rt: &impl Print) -> io::Result<()> {
        let first = self.next(0);
        print!(rt; "{:04X} takes", self.setting.id)?;
        begin(rt, first)?;
        let agree = self.agreeing(rt, first)?;
        let differ = WISHED.abs_diff(agree);
        println!(rt; "; wished numbers that agree {agree}, that differ {differ}")
    }

    // Goes up through the wished numbers and counts those on which calls and search agree. On the way it knows the last accepted number so
    // far, and the next one from here: where that is farther on, a run of accepted numbers has ended, which is printed. None reaches 65535,
    // so each has its end here.
    fn agreeing(self, rt: &impl Print, first: Option<u16>) -> io::Result<usize> {
        let mut below = None;
        let mut above = first;
        let mut agreed = 0;
        for wished in 0..=u16::MAX {
            if above.is_some_and(|number| number < wished) {
                above = self.next(wished);
                if above != Some(wished) {
                    end(rt, below)?;
                    begin(rt, above)?;
                }
            }
            if above == Some(wished) {
                below = above;
            }
            if closer(wished, below, above).is_some_and(|due| self.agrees(wished, due)) {
                agreed += 1;
            }
        }
        Ok(agreed)
    }

    // Returns the first accepted number from here on.
    fn next(self, from: u16) -> Option<u16> {
        (from..=u16::MAX).find(|number| self.accepts(*number))
    }

    // Returns whether a Set of the number is accepted.
    fn accepts(self, number: u16) -> bool {
        self.table.set(self.setting.index, number).answer.is_ok()
    }

    // Returns whether both calls answer the due number, which is the wished one exactly where that is accepted, and then the table is allowed.
    fn agrees(self, wished: u16, due: u16) -> bool {
        let Case {
            table,
            setting,
            partner,
        } = self;
        let change = table.set(setting.index, wished);
        settings::nearest(setting.id, wished, partner) == Ok(due)
            && change == self.due_change(wished, due)
            && (change.answer.is_err() || change.table.is_allowed())
    }

    // Returns the change that a Set of the wished number has to make: of that setting alone where the number is due, else of nothing, with
    // the due number beside the refusal.
    fn due_change(self, wished: u16, due: u16) -> Change {
        if due == wished {
            Change {
                answer: Ok(()),
                table: with(self.table, self.setting, wished),
            }
        } else {
            Change {
                answer: Err(Denied {
                    refusal: Refusal::NumberNotAllowed,
                    nearest: due,
                }),
                table: self.table,
            }
        }
    }
}

// Prints the number that a run begins with, if there is one.
fn begin(rt: &impl Print, number: Option<u16>) -> io::Result<()> {
    match number {
        Some(number) => print!(rt; " {number}"),
        None => Ok(()),
    }
}

// Prints the number that a run ends with.
fn end(rt: &impl Print, number: Option<u16>) -> io::Result<()> {
    match number {
        Some(number) => print!(rt; "..{number}"),
        None => Ok(()),
    }
}

// Returns a table with a number put in, allowed or not. `try_calls` has one of its own for the numbers of a row, which may be any: a crate for
// the two would be longer.
pub fn with(table: Table, setting: Setting, number: u16) -> Table {
    let mut after = table;
    if let Some(place) = after.numbers.get_mut(setting.index) {
        *place = number;
    }
    after
}

// Returns the nearer of two numbers, the smaller on a tie.
fn closer(wished: u16, below: Option<u16>, above: Option<u16>) -> Option<u16> {
    [below, above]
        .into_iter()
        .flatten()
        .min_by_key(|number| number.abs_diff(wished))
}
