// The kinds of byte that a reading of the stream asks for. No test has a branch, so that the compiler may look at many bytes at a time.
ghost use Rattle.stream.specs.Stream.{ends_frame};
ghost use Rattle.stream.specs.Calls.{stays};

use spans::Kind;

// What ends a frame: a newline or a colon.
#[derive(Clone, Copy)]
pub(crate) struct FrameEnd;

impl Kind for FrameEnd {
    ghost holds = { λ _ b. ends_frame b };

    fn holds(self, b: u8) -> bool {
        (b == paper::NEWLINE) | (b == paper::COLON)
    }
}

// What stays in its frame: any other. It is FrameEnd's opposite and still a kind: `spans::all` wants what holds of each byte, and looks at
// many at a time, where `first` returns at a byte.
#[derive(Clone, Copy)]
pub(crate) struct Staying;

impl Kind for Staying {
    ghost holds = { λ _ b. stays b };

    fn holds(self, b: u8) -> bool {
        (b != paper::NEWLINE) & (b != paper::COLON)
    }
}
