// The stream of document 01, read piece by piece, for both ends of the serial line. Every call takes anything, and its promise fixes its
// answer and every lent byte (specs/Calls.antt).
#![tactic(auto)]

ghost use Rattle.laws.specs.Promise.{Gives};
ghost use Rattle.stream.specs.Calls.{hearing, held_of, allowed};
ghost use Rattle.stream.specs.Stream.{outside};
ghost use Rattle.stream.specs.declared.Heard.{Heard};
ghost use Rattle.std.specs.Prelude.{◌≡◌, length};

use kinds::Staying;
use paper::Refusal;
use spans::Few;
use wire::Frame;

mod kinds;
mod pieces;
mod unfinished;

// The most characters held. 74 of them mean "over 73", and the refusal is the same however many more there are.
const MOST_HELD: usize = 74;

// The unfinished frame between two calls: whether there is one, and the characters since its colon. 74 of them mean "over 73". The flag
// stays beside them: AllowedIsLeft speaks of each such value, and the edits started_inside and one_held_at_start change one of the two
// each.
#[derive(Clone, Copy, PartialEq, Eq)]
pub struct Held {
    pub inside: bool,
    pub chars: Few<MOST_HELD>,
}

// What a call on the stream answers: the advanced state, the frame that ended if one did, and how many bytes of the piece it took. A
// refusal is 1 to 4 of the frame that ended, or 11 or 12 of the call.
#[derive(Clone, Copy, PartialEq, Eq)]
pub struct Heard {
    pub held: Held,
    pub event: Result<Option<Frame>, Refusal>,
    pub taken: usize,
}

impl Held {
    // Returns the state in which no frame is unfinished, with which every stream starts.
    #[tactic(auto, unfolding(crate::specs::Calls::held_of))]
    pub fn outside() -> Held
        ensures { result ≡ held_of outside }
    {
        Held {
            inside: false,
            chars: Few::of(&[]),
        }
    }

    // Returns whether this is a state that some bytes leave.
    #[tactic(auto, unfolding(crate::specs::Calls::allowed))]
    pub fn is_allowed(self) -> bool
        ensures { result ≡ allowed self }
    {
        self.chars.is_tidy()
            && (self.inside || self.chars.len == 0)
            && spans::all(self.chars.as_slice(), Staying)
    }

    // Reads on in the stream: stops after the first byte that ends a frame, or takes the whole piece. Refuses 11 under 35 bytes of room,
    // then 12 for a state that no bytes could have left.
    #[tactic(auto, unfolding(crate::specs::Calls::hearing, laws::specs::Promise::overlaid))]
    pub fn hear(self, piece: &[u8], into: &mut [u8]) -> Heard
        ensures { Gives Heard (hearing self piece.now (length into.old)) into.old result into.new }
    {
        if into.len() < paper::MOST_DATA {
            return pieces::refused(self, Refusal::ShortBuffer);
        }
        if !self.is_allowed() {
            return pieces::refused(self, Refusal::NotAllowed);
        }
        pieces::heard(self, piece, into)
    }
}
