// A talk with a board over a serial line: requests go out one at a time, and what comes back is told to the machine that asks. Three
// machines ask: the collector reads the settings (collecting.rt), the follower follows a restore (restoring.rt), the viewer looks at the
// read-only values (viewing.rt).
use crate::ear::{News, Said};
use crate::serial::Ends;
use crate::{clock, ear};
use listen::{Listener, Told};
use ports::{Port, Report};
use requests::Request;

// The listener's time is over long before there are this many frames that say nothing of what was asked.
const MOST_EVENTS: u32 = 1000000000;

// A machine asks three times at most, for no more than there are settings.
pub(crate) const MOST_REQUESTS: usize = 3 * settings::COUNT;

// A machine that asks, as it is after what it was told last.
pub(crate) trait Machine: Copy {
    // Returns the request that it waits for, or none where it has ended.
    fn due(&self) -> Option<Request>;

    // Returns how many requests were answered in the way that it needs.
    fn count(&self) -> usize;

    // Returns it after a frame. The machines' public calls take the command and the bytes apart, since an event holds no slice.
    fn after_frame(&self, command: u8, bytes: &[u8]) -> Self;

    // Returns it after what was no frame.
    fn after_noise(&self) -> Self;

    // Returns it after a wait in which no answer came.
    fn after_silence(&self) -> Self;

    // Shows what an answer has brought, with what was said and the machine after it.
    fn show(&self, after: &Self, said: &[u8], report: Report);
}

// A talk: the machine that asks, whether the board was silent, whether nothing more can come, and what was said last.
#[derive(Clone, Copy)]
pub(crate) struct Talk<M> {
    pub(crate) machine: M,
    listener: Listener,
    silent: bool,
    ended: bool,
    pub(crate) said: Said,
}

// Sends a request. That `len` fits the frame follows from the promise of `requests::write` only through the texts' lengths, hence `get`.
fn ask(line: &Port, request: Request) {
    let mut frame = [0; paper::FRAME_ROOM];
    if let Ok(len) = requests::write(request, &mut frame) {
        let _ = ports::send(line, frame.get(..len).unwrap_or_default());
    }
}

impl<M: Machine> Talk<M> {
    // Returns a talk with a trailer that was begun at this time, in which nothing was sent yet. Without a clock nothing is heard of
    // it, whatever its time.
    pub(crate) fn start(machine: M, begun: Option<u64>) -> Talk<M> {
        Talk {
            machine,
            listener: Listener::start(begun.unwrap_or(0)),
            silent: false,
            ended: false,
            said: Said::of(&[]),
        }
    }

    // Returns whether the request after `before` answered ones is still open: nothing has answered it, and its time is not over.
    fn waits(&self, before: usize) -> bool {
        self.machine.due().is_some() && self.machine.count() == before && !self.silent
    }

    // Tells news to the machine.
    fn hear(&mut self, news: News) {
        self.machine = match news.told {
            Told::Frame(frame) => self
                .machine
                .after_frame(frame.command, news.said.as_slice()),
            Told::Nothing | Told::Broken(_) => self.machine.after_noise(),
            Told::NoAnswer | Told::Refused(_) => self.machine.after_silence(),
        };
        self.listener = news.listener;
        self.silent = matches!(news.told, Told::NoAnswer | Told::Refused(_));
        self.ended = news.ended;
        self.said = news.said;
    }

    // Tells the machine that no answer came.
    fn hear_silence(&mut self) {
        self.hear(ear::silence(self.listener, self.ended));
    }

    // Listens until the request that was sent is answered or the talk has ended. A request that is still open then has got no answer.
    fn answer(&mut self, ends: &Ends) {
        let before = self.machine.count();
        self.listener = self.listener.asked(clock::time(ends.system).unwrap_or(0));
        self.silent = false;
        for _ in 0..MOST_EVENTS {
            if !self.waits(before) {
                return;
            }
            self.hear(ear::next(ends, self.listener));
        }
        if self.waits(before) {
            self.hear_silence();
        }
    }

    // Sends what is due, hears what becomes of it, and shows that in the report, if one is given; does nothing where the machine has ended.
    // Where nothing more can come, there is nobody to send to.
    pub(crate) fn further(&mut self, ends: &Ends, shown: Option<Report>) {
        if self.ended {
            self.hear_silence();
            return;
        }
        let before = self.machine;
        let Some(request) = before.due() else {
            return;
        };
        ask(&ends.port, request);
        self.answer(ends);
        match shown {
            Some(report) if self.machine.count() != before.count() => {
                before.show(&self.machine, self.said.as_slice(), report)
            }
            _ => {}
        }
    }

    // Leads the talk to its end.
    pub(crate) fn whole(mut self, ends: &Ends, shown: Option<Report>) -> Talk<M> {
        for _ in 0..MOST_REQUESTS {
            self.further(ends, shown);
        }
        self
    }
}
