// The unfinished frame: what a colon begins, and what more characters make of it.
ghost use Rattle.std.specs.Prelude.{◌≡◌, true, [], ◌++◌};
ghost use Rattle.spans.specs.Few.{those};
ghost use Rattle.stream.specs.Calls.{allowed, held_of};
ghost use Rattle.stream.specs.Stream.{inside};

use crate::Held;

impl Held {
    // Returns the frame that a colon has just begun.
    #[tactic(auto, unfolding(crate::specs::Calls::held_of))]
    pub(crate) fn begun() -> Held
        ensures { result ≡ held_of (inside []) }
    {
        Held {
            inside: true,
            ..Held::outside()
        }
    }

    // Returns the unfinished frame with some more characters, of which none is kept past the 74th. They go into a copy of the whole array:
    // `Few::put` makes a new one, which takes longer byte by byte.
    pub(crate) fn with_more(self, more: &[u8]) -> Held
        requires { (allowed self ≡ true) × (self.inside ≡ true) }
        ensures { result ≡ held_of (inside (those self.chars ++ more.now)) }
    {
        let mut chars = self.chars;
        let len = chars.len;
        let count = spans::copy(more, &mut chars.bytes[len..]);
        chars.len = len + count;
        Held {
            inside: true,
            chars,
        }
    }
}
