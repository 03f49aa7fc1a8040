ghost use Rattle.std.specs.Prelude.{◌≡◌};
ghost use Rattle.who.specs.Values.{read_only};
ghost use Rattle.answers.specs.Answers as answers;
ghost use Rattle.answers.specs.AsHeld.{decided_of};

use crate::known::Known;
use crate::{Core, Decided, Message, Outcome, Sound};
use paper::Refusal;
use tables::{Change, Denied};

impl Sound {
    // Answers a Set: an id, flags 0 and a value. Fewer data or other flags are refused by 6.
    #[tactic(auto, unfolding(crate::specs::AsHeld::decided_of, crate::specs::Answers::set_answer))]
    pub(crate) fn set(self, bytes: &[u8]) -> Decided
        ensures { result ≡ decided_of (answers.set_answer self.core bytes.now) }
    {
        if bytes.len() < paper::FRONT || bytes[2] != paper::NO_FLAGS {
            return self.core.malformed();
        }
        let id = endian::read_16(bytes);
        match Known::find(id) {
            Some(known) => known.set(self.core, &bytes[paper::FRONT..]),
            None => self.set_other(id),
        }
    }

    // Refuses a Set of any other id: 8 for a read-only one, else 7. Identity and readings are two arguments, for the call of `who` knows no
    // `Core`.
    fn set_other(self, id: u16) -> Decided
        ensures { result ≡ decided_of (answers.sets_other self.core id (read_only self.core.identity self.core.readings id)) }
    {
        match who::read_only(self.core.identity, self.core.readings, id) {
            Ok(_) => self.core.sends(
                Outcome::Refused(Refusal::ReadOnlyId),
                Message::saying(paper::SET_CODE, id, paper::SUPPORT_FLAG, &[]),
            ),
            Err(_) => self.core.unknown_id(paper::SET_CODE, id),
        }
    }
}

impl Known {
    // Answers a Set of the setting: 9 for another width than its own, else what the table makes of the number.
    #[tactic(auto, unfolding(crate::specs::AsHeld::decided_of, crate::specs::Answers::sets_setting))]
    fn set(self, core: Core, value: &[u8]) -> Decided
        ensures { result ≡ decided_of (answers.sets_setting core self.setting value.now) }
    {
        if value.len() != self.setting.width {
            return core.sends(
                Outcome::Refused(Refusal::WrongWidth),
                self.saying(
                    paper::SET_CODE,
                    paper::PARAMETER_FLAG,
                    self.held(core.table),
                ),
            );
        }
        let number = endian::read_16(value);
        let Change { answer, table } = core.table.set(self.setting.index, number);
        let core = Core { table, ..core };
        match answer {
            Ok(()) => core.sends(
                Outcome::Answered,
                self.saying(paper::SET_CODE, paper::GOOD_FLAG, number),
            ),
            Err(Denied { refusal, nearest }) => core.sends(
                Outcome::Refused(refusal),
                self.saying(paper::SET_CODE, paper::PARAMETER_FLAG, nearest),
            ),
        }
    }
}
