// The data of the kinds of replies. Data that do not fit their kind are refused by 6.
ghost use Rattle.std.specs.Prelude.{◌≡◌};
ghost use Rattle.reply.specs.Replies.{named, numbered, front};

use crate::Status;
use paper::Refusal;

// Returns the command that the board does not know.
#[tactic(auto, unfolding(crate::specs::Replies::named))]
pub(crate) fn named(bytes: &[u8]) -> Result<u8, Refusal>
    ensures { result ≡ named bytes.now }
{
    match *bytes {
        [command] => Ok(command),
        _ => Err(Refusal::Malformed),
    }
}

// Returns the one number that the data are: an error's code or a version.
#[tactic(auto, using(endian::proofs::Little::all_first), unfolding(crate::specs::Replies::numbered))]
pub(crate) fn number(bytes: &[u8]) -> Result<u16, Refusal>
    ensures { result ≡ numbered bytes.now }
{
    if bytes.len() != 2 {
        return Err(Refusal::Malformed);
    }
    Ok(endian::read_16(bytes))
}

// Returns the status and the id that the first three bytes of a Get, Set or Async reply say.
#[tactic(auto, unfolding(crate::specs::Replies::front))]
pub(crate) fn front(bytes: &[u8]) -> Result<(Status, u16), Refusal>
    ensures { result ≡ front bytes.now }
{
    if bytes.len() < paper::FRONT {
        return Err(Refusal::Malformed);
    }
    let status = Status::try_from(bytes[2])?;
    Ok((status, endian::read_16(bytes)))
}
