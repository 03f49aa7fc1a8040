// The follower in a talk: a restore, one Set at a time, each shown when the board has confirmed it.
use crate::serial::Ends;
use crate::talk::{Machine, Talk};
use crate::{names, said, words};
use follow::{Followed, Follower, Standing};
use lines::Line;
use ports::Report;
use requests::{Request, Wanted};
use tables::Table;

impl Machine for Followed {
    fn due(&self) -> Option<Request> {
        match self.standing {
            Standing::Waiting(request) => Some(request),
            _ => None,
        }
    }

    fn count(&self) -> usize {
        self.confirmed
    }

    fn after_frame(&self, command: u8, bytes: &[u8]) -> Followed {
        self.follower.reply(command, bytes)
    }

    fn after_noise(&self) -> Followed {
        self.follower.refused_frame()
    }

    fn after_silence(&self) -> Followed {
        self.follower.no_answer()
    }

    // Shows the Set that was just confirmed and, by the follower's own count, how many are.
    fn show(&self, after: &Followed, _said: &[u8], report: Report) {
        words::add(report, sentences::progress(after.follower));
        words::tell(report, put_set(Line::start(), self.due()));
    }
}

// Puts the setting and the number of a Set.
fn put_set(line: Line, due: Option<Request>) -> Line {
    match due {
        Some(Request::Set(wanted)) => {
            names::put_row(line.put(b": "), wanted.setting.index, wanted.number)
        }
        _ => line,
    }
}

// Shows one Set of the list, with the number that the board holds now.
fn plan(report: Report, from: Table, wanted: Wanted) {
    let index = wanted.setting.index;
    if let Some(number) = from.numbers.get(index) {
        let row = names::put_row(Line::start(), index, *number).put(b" -> ");
        words::tell(report, names::put_amount(row, index, wanted.number));
    }
}

// Shows the list, in the order in which it is sent. (Two tables, as `restore::due_after` takes them: its promise is of any two.)
pub(crate) fn show_list(report: Report, from: Table, to: Table) {
    for done in 0..settings::COUNT {
        let Ok(Some(wanted)) = restore::due_after(from, to, done) else {
            break;
        };
        plan(report, from, wanted);
    }
}

// Turns the board's table `from` into `to`, and shows what is confirmed in the report, if one is given. (Two
// tables, as `Follower::start` takes them: its promise is of any two.)
pub(crate) fn follow(ends: &Ends, from: Table, to: Table, shown: Option<Report>) -> Talk<Followed> {
    Talk::start(Follower::start(from, to), ends.begun).whole(ends, shown)
}

// Says how a restore ended, in the follower's own words: done only where it says so. Where it stopped, it adds at which Set, and what the
// board said.
pub(crate) fn tell_end(report: Report, restored: &Talk<Followed>) {
    let followed = restored.machine;
    words::add(report, sentences::followed(followed.follower));
    if let Standing::Stopped(wanted) = followed.standing {
        let said = restored.said.as_slice();
        words::add(report, said::put_stop(Line::start(), wanted, said));
    }
    words::end(report);
}
