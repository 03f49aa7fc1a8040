// What the board decides about a whole frame, command by command.
ghost use Rattle.std.specs.Prelude.{◌≡◌};
ghost use Rattle.answers.specs.Answers as answers;
ghost use Rattle.answers.specs.AsHeld.{decided_of};
ghost use Rattle.answers.specs.declared.Sends.{Sends};

use crate::{Core, Decided, Message, Outcome, Sends, Sound};
use paper::Refusal;
use who::Readings;

impl Core {
    // Decides to send a message.
    pub(crate) fn sends(self, outcome: Outcome, message: Message) -> Decided
        ensures { result ≡ record { outcome = outcome; sends = Sends.Frame message; core = self } }
    {
        Decided {
            outcome,
            sends: Sends::Frame(message),
            core: self,
        }
    }

    // Decides to send nothing.
    pub(crate) fn silent(self, outcome: Outcome) -> Decided
        ensures { result ≡ decided_of (answers.staying self outcome answers.silent) }
    {
        Decided {
            outcome,
            sends: Sends::Nothing,
            core: self,
        }
    }

    // Refuses data that do not fit their command, by 6, and decides to send the error frame.
    pub(crate) fn malformed(self) -> Decided
        ensures { result ≡ decided_of (answers.malformed self) }
    {
        Decided {
            outcome: Outcome::Refused(Refusal::Malformed),
            sends: Sends::Error,
            core: self,
        }
    }

    // Refuses a command that the board does not know, by 5, and decides to send its number.
    fn unknown_command(self, command: u8) -> Decided
        ensures { result ≡ decided_of (answers.unknown_command self command) }
    {
        self.sends(
            Outcome::Refused(Refusal::UnknownCommand),
            Message::new(paper::UNKNOWN_CODE, &[command]),
        )
    }

    // Refuses an id that is neither a setting's nor read-only, by 7.
    pub(crate) fn unknown_id(self, command: u8, id: u16) -> Decided
        ensures { result ≡ decided_of (answers.unknown_id self command id) }
    {
        self.sends(
            Outcome::Refused(Refusal::UnknownId),
            Message::saying(command, id, paper::UNKNOWN_FLAG, &[]),
        )
    }

    // Answers Ping, App version and Product id with a number; refuses data by 6.
    #[tactic(auto, unfolding(crate::specs::AsHeld::decided_of, crate::specs::Answers::tells))]
    fn tells(self, response: u8, number: u16, bytes: &[u8]) -> Decided
        ensures { result ≡ decided_of (answers.tells self response number bytes.now) }
    {
        if !bytes.is_empty() {
            return self.malformed();
        }
        self.sends(
            Outcome::Answered,
            Message::new(response, &endian::bytes_16(number)),
        )
    }

    // Restarts the board: readings become 0, settings stay, and nothing is sent; refuses data by 6.
    #[tactic(auto, unfolding(crate::specs::AsHeld::decided_of, crate::specs::Answers::restarts))]
    fn restarts(self, bytes: &[u8]) -> Decided
        ensures { result ≡ decided_of (answers.restarts self bytes.now) }
    {
        if !bytes.is_empty() {
            return self.malformed();
        }
        let restarted = Core {
            readings: Readings::nothing(),
            ..self
        };
        restarted.silent(Outcome::Restarted)
    }
}

impl Sound {
    // Answers a whole frame, by its command. Command and data stay the two parameters of the public call.
    #[tactic(auto, unfolding(crate::specs::Answers::frame_answer))]
    pub(crate) fn answer(self, command: u8, bytes: &[u8]) -> Decided
        ensures { result ≡ decided_of (answers.frame_answer self.core command bytes.now) }
    {
        let core = self.core;
        let version = core.identity.version;
        let product = core.identity.product;
        match command {
            paper::PING_CODE => core.tells(paper::PONG_CODE, version, bytes),
            paper::VERSION_CODE => core.tells(paper::DONE_CODE, version, bytes),
            paper::PRODUCT_CODE => core.tells(paper::DONE_CODE, product, bytes),
            paper::RESTART_CODE => core.restarts(bytes),
            paper::GET_CODE => self.get(bytes),
            paper::SET_CODE => self.set(bytes),
            paper::ASYNC_CODE => core.silent(Outcome::Ignored),
            _ => core.unknown_command(command),
        }
    }
}
