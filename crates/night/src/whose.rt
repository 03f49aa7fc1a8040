// The serial of a board, by the Get of 010A. What a serial is, and how often it is asked for, `view` decides. A board that told none has
// none here.
use crate::serial::Ends;
use crate::talk::Talk;
use lines::Line;
use view::{Next, Sight, Viewed, Viewer};

// Returns a viewer to which the serial is due: the product, which comes before it, is passed over as one that the board does not know.
fn due() -> Viewed {
    let viewer = Viewer::start().viewer;
    viewer.reply(paper::GET_CODE, &[0x00, 0x01, paper::UNKNOWN_FLAG])
}

// Returns the serial in a value, which ends at the first zero byte.
fn in_value(value: &[u8]) -> Line {
    Line::start().put(&value[..spans::find(value, 0)])
}

// Returns the serial that a talk has brought: it is in what was said, of which the first three bytes are no part of it.
fn in_talk(talk: &Talk<Viewed>) -> Option<Line> {
    match talk.machine.sight {
        Sight::Understood(_) => talk.said.as_slice().get(paper::FRONT..).map(in_value),
        _ => None,
    }
}

// Returns whether the viewer still asks for the serial.
fn is_due(viewed: Viewed) -> bool {
    matches!(viewed.next, Next::Waiting(paper::SERIAL_ID))
}

// Asks a board for its serial, at most so many times. Where the serial is only shown, once is enough: a dead board would keep the box
// waiting for the same silence twice.
pub(crate) fn ask(ends: &Ends, most: usize) -> Option<Line> {
    let mut talk = Talk::start(due(), ends.begun);
    for _ in 0..most {
        if !is_due(talk.machine) {
            break;
        }
        talk.further(ends, None);
    }
    in_talk(&talk)
}
