// What the box makes of a frame: the kind of reply, what it says to the request that is due, and a reading in its unit. Every call takes
// anything, and its promise fixes its answer (specs/Calls.antt).
#![tactic(auto)]

ghost use Rattle.std.specs.Prelude.{◌≡◌};
ghost use Rattle.reply.specs.Replies.{status_of, about};
ghost use Rattle.reply.specs.Calls.{parsing, heeding, showing};

use paper::Refusal;

mod kinds;
mod numbers;
mod units;

// How many times in all the box sends a Get to which no answer comes (ours).
pub const MOST_TRIES: usize = 3;

// What a board says of a Get or a Set: flags 00, 01, 02 and 04.
#[derive(Clone, Copy, PartialEq, Eq)]
pub enum Status {
    Good,
    UnknownId,
    NotSupported,
    ParameterError,
}

impl TryFrom<u8> for Status {
    type Error = Refusal;

    ghost try_from_gives = { λ flag status. status ≡ status_of flag };

    #[tactic(auto, unfolding(crate::specs::Replies::status_of))]
    fn try_from(flag: u8) -> Result<Status, Refusal> {
        match flag {
            paper::GOOD_FLAG => Ok(Status::Good),
            paper::UNKNOWN_FLAG => Ok(Status::UnknownId),
            paper::SUPPORT_FLAG => Ok(Status::NotSupported),
            paper::PARAMETER_FLAG => Ok(Status::ParameterError),
            _ => Err(Refusal::Malformed),
        }
    }
}

// A reply, with a kind for each code: 1, 3, 4, 5, 7, 8, A. The value of the last three kinds is the rest of the data, after the first three
// bytes; the payload of the first is all of it.
#[derive(Clone, Copy, PartialEq, Eq)]
pub enum Reply {
    Done,
    Unknown { command: u8 },
    Error { code: u16 },
    Ping { version: u16 },
    Get { status: Status, id: u16 },
    Set { status: Status, id: u16 },
    Async { status: Status, id: u16 },
}

impl Reply {
    // Returns the status that a reply of this id has. Only a Get, Set or Async reply has one.
    fn status_about(self, due: u16) -> Option<Status>
        ensures { result ≡ about due self }
    {
        match self {
            Reply::Get { status, id } | Reply::Set { status, id } | Reply::Async { status, id }
                if id == due => { Some(status) }
            _ => None,
        }
    }
}

// A reading in its unit.
#[derive(Clone, Copy)]
pub enum Shown {
    Volts(f64),
    Amperes(f64),
    AmpHours(f64),
    Percent(f64),
}

// Returns the reply that a frame of this command and these data is (document 01: "from command and data", so here and below they are two):
// 5 for a code that no reply has, then 6 for data that do not fit it.
#[tactic(auto, unfolding(crate::specs::Calls::parsing))]
pub fn read(command: u8, bytes: &[u8]) -> Result<Reply, Refusal>
    ensures { result ≡ parsing command bytes.now }
{
    match command {
        paper::DONE_CODE => Ok(Reply::Done),
        paper::UNKNOWN_CODE => kinds::named(bytes).map(|command| Reply::Unknown { command }),
        paper::ERROR_CODE => kinds::number(bytes).map(|code| Reply::Error { code }),
        paper::PONG_CODE => kinds::number(bytes).map(|version| Reply::Ping { version }),
        paper::GET_CODE => kinds::front(bytes).map(|(status, id)| Reply::Get { status, id }),
        paper::SET_CODE => kinds::front(bytes).map(|(status, id)| Reply::Set { status, id }),
        paper::ASYNC_CODE => kinds::front(bytes).map(|(status, id)| Reply::Async { status, id }),
        _ => Err(Refusal::UnknownCommand),
    }
}

// Returns the status in which a frame of this command and these data answers the request that is due, given by its code and its id; none
// where it does not answer it, so that the box waits on. The value of a good answer is the rest of the data, after the first three bytes.
#[tactic(auto, unfolding(crate::specs::Calls::heeding))]
pub fn heed(code: u8, id: u16, command: u8, bytes: &[u8]) -> Option<Status>
    ensures { result ≡ heeding code id command bytes.now }
{
    if command != code {
        return None;
    }
    read(command, bytes).ok()?.status_about(id)
}

// Returns the reading that a value of this id is: 7 for an id that is no reading, then 9 for a wrong width. The id is a number and no enum:
// the law ShownExactly speaks of every one.
#[tactic(auto, unfolding(crate::specs::Calls::showing))]
pub fn show(id: u16, value: &[u8]) -> Result<Shown, Refusal>
    ensures { result ≡ showing id value.now }
{
    match id {
        paper::VOLTAGE_ID => units::narrow(value, numbers::STEPS_OF_VOLT).map(Shown::Volts),
        paper::CURRENT_ID => units::narrow(value, numbers::STEPS_OF_AMPERE).map(Shown::Amperes),
        paper::FINE_ID => units::wide(value, numbers::FINE_STEPS_OF_AMPERE).map(Shown::Amperes),
        paper::CONSUMED_ID => units::wide(value, numbers::STEPS_OF_AMP_HOUR).map(Shown::AmpHours),
        paper::CHARGE_ID => units::unsigned(value, numbers::STEPS_OF_PERCENT).map(Shown::Percent),
        _ => Err(Refusal::UnknownId),
    }
}
