// The collector in a talk: a board's settings asked for by Gets, one after the other.
use crate::serial::Ends;
use crate::talk::{Machine, Talk};
use crate::{names, said, words};
use collect::{Collected, Collector, Stage};
use lines::Line;
use ports::Report;
use requests::Request;

impl Machine for Collected {
    fn due(&self) -> Option<Request> {
        match self.stage {
            Stage::Waiting(setting) => Some(Request::Get(setting.id)),
            _ => None,
        }
    }

    fn count(&self) -> usize {
        self.answered
    }

    fn after_frame(&self, command: u8, bytes: &[u8]) -> Collected {
        self.collector.reply(command, bytes)
    }

    fn after_noise(&self) -> Collected {
        self.collector.refused_frame()
    }

    fn after_silence(&self) -> Collected {
        self.collector.no_answer()
    }

    // Shows the number that was just answered.
    fn show(&self, after: &Collected, _said: &[u8], report: Report) {
        let index = self.answered;
        if let Some(number) = after.collector.numbers.get(index) {
            words::tell(report, names::put_row(Line::start(), index, *number));
        }
    }
}

// Reads all settings of the board, and shows each as it comes in the report, if one is given.
pub(crate) fn settings_of(ends: &Ends, shown: Option<Report>) -> Talk<Collected> {
    Talk::start(Collector::start(), ends.begun).whole(ends, shown)
}

// Says how many settings were read, in the collector's own words, and at which it stopped and why, which what was said last tells.
pub(crate) fn tell_end(report: Report, read: &Talk<Collected>) {
    let collected = read.machine;
    let collector = collected.collector;
    words::add(report, sentences::collected(collector));
    if let Stage::Stopped(setting) = collected.stage {
        let said = read.said.as_slice();
        words::add(
            report,
            said::put_unread(Line::start(), setting, &collector.numbers, said),
        );
    }
    words::end(report);
}
