// The viewer in a talk: who the board is, and its readings.
use crate::talk::Machine;
use crate::words;
use ports::Report;
use requests::Request;
use view::{Next, Viewed};

impl Machine for Viewed {
    fn due(&self) -> Option<Request> {
        match self.next {
            Next::Waiting(id) => Some(Request::Get(id)),
            _ => None,
        }
    }

    fn count(&self) -> usize {
        self.viewer.answered
    }

    fn after_frame(&self, command: u8, bytes: &[u8]) -> Viewed {
        self.viewer.reply(command, bytes)
    }

    // A broken frame says nothing to the viewer.
    fn after_noise(&self) -> Viewed {
        *self
    }

    fn after_silence(&self) -> Viewed {
        self.viewer.no_answer()
    }

    // Shows the value that was just answered, by the viewer as it was before. Only a Get reply answers a viewer.
    fn show(&self, _after: &Viewed, said: &[u8], report: Report) {
        words::tell(report, sentences::seen(self.viewer, paper::GET_CODE, said));
    }
}
