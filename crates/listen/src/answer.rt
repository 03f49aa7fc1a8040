// What a read answers: that it did nothing and why, or what the stream says.
ghost use Rattle.std.specs.Prelude.{◌≡◌};
ghost use Rattle.listen.specs.Calls as calls;

use crate::{Listened, Listener, Told};
use paper::Refusal;
use stream::Heard;
use wire::Frame;

impl Listener {
    // Tells why nothing was done: the listener is as it was, and nothing is taken.
    pub(crate) fn idle(self, told: Told) -> Listened
        ensures { result ≡ calls.idle self told }
    {
        Listened {
            listener: self,
            told,
            taken: 0,
        }
    }

    // Tells what the stream made of the bytes.
    pub(crate) fn reported(self, heard: Heard) -> Listened
        ensures { result ≡ calls.reported self heard }
    {
        Listened {
            listener: Listener {
                held: heard.held,
                ..self
            },
            told: Told::from(heard.event),
            taken: heard.taken,
        }
    }
}

// What the stream's event tells.
impl From<Result<Option<Frame>, Refusal>> for Told {
    ghost from_gives = { λ event told. told ≡ calls.told_by event };

    fn from(event: Result<Option<Frame>, Refusal>) -> Told {
        match event {
            Ok(None) => Told::Nothing,
            Ok(Some(frame)) => Told::Frame(frame),
            Err(refusal) => Told::Broken(refusal),
        }
    }
}
