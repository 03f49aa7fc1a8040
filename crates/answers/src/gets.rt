ghost use Rattle.std.specs.Prelude.{◌≡◌};
ghost use Rattle.who.specs.Values.{read_only};
ghost use Rattle.answers.specs.Answers as answers;
ghost use Rattle.answers.specs.AsHeld.{decided_of};

use crate::known::Known;
use crate::{Decided, Message, Outcome, Sound};

impl Sound {
    // Answers a Get: an id and flags 0, and no more. Any other data are refused by 6.
    #[tactic(auto, unfolding(crate::specs::AsHeld::decided_of, crate::specs::Answers::get_answer))]
    pub(crate) fn get(self, bytes: &[u8]) -> Decided
        ensures { result ≡ decided_of (answers.get_answer self.core bytes.now) }
    {
        if bytes.len() != paper::FRONT || bytes[2] != paper::NO_FLAGS {
            return self.core.malformed();
        }
        let id = endian::read_16(bytes);
        match Known::find(id) {
            Some(known) => self.core.sends(
                Outcome::Answered,
                known.saying(
                    paper::GET_CODE,
                    paper::GOOD_FLAG,
                    known.held(self.core.table),
                ),
            ),
            None => self.get_other(id),
        }
    }

    // Answers a Get of any other id: with the value of a read-only one, else by 7. Identity and readings are two arguments, for the call of
    // `who` knows no `Core`.
    fn get_other(self, id: u16) -> Decided
        ensures { result ≡ decided_of (answers.gets_other self.core id (read_only self.core.identity self.core.readings id)) }
    {
        match who::read_only(self.core.identity, self.core.readings, id) {
            Ok(value) => self.core.sends(
                Outcome::Answered,
                Message::saying(paper::GET_CODE, id, paper::GOOD_FLAG, value.as_slice()),
            ),
            Err(_) => self.core.unknown_id(paper::GET_CODE, id),
        }
    }
}
