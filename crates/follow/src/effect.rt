// What an event does to a follower.
ghost use Rattle.std.specs.Prelude.{◌≡◌};
ghost use Rattle.reply.specs.Events.{heard, no_answer};
ghost use Rattle.follow.specs.Following.{carries, on_reply, effect_at};
ghost use Rattle.follow.specs.AsHeld.{Narrow, Awaits};

use crate::Standing;
use reply::Status;
use requests::{Request, Wanted};

// What a frame does: a Set reply with the due id, flag 00 and the due number confirms; one with the due id and anything else stops; all
// else waits.
#[derive(Clone, Copy)]
pub(crate) enum Effect {
    Confirms,
    Stops,
    Waits,
}

// Returns whether a value is the due number in its width.
#[tactic(auto, using(endian::proofs::Little::all_first), unfolding(crate::specs::Following::carries))]
fn is_carried(due: Wanted, value: &[u8]) -> bool
    requires { Narrow due }
    ensures { result ≡ carries due value.now }
{
    value.len() == due.setting.width && endian::read_16(value) == due.number
}

// Returns what a frame (its command and its data, as its clause has them) does, as an answer to the Set that is due.
#[tactic(auto, using(reply::proofs::Lengths::status_long, laws::proofs::Lists::part_to_end), unfolding(crate::specs::Following::on_reply))]
fn on_reply(due: Wanted, command: u8, bytes: &[u8]) -> Effect
    requires { Narrow due }
    ensures { result ≡ on_reply due command bytes.now }
{
    match reply::heed(paper::SET_CODE, due.setting.id, command, bytes) {
        None => Effect::Waits,
        Some(Status::Good) if is_carried(due, &bytes[paper::FRONT..]) => Effect::Confirms,
        Some(_) => Effect::Stops,
    }
}

// Returns what a frame does to a follower that is this far: one that has ended stays as it was, and a Get would keep waiting.
pub(crate) fn of_frame(standing: Standing, command: u8, bytes: &[u8]) -> Effect
    requires { Awaits standing }
    ensures { result ≡ effect_at standing (heard command bytes.now) }
{
    match standing {
        Standing::Waiting(Request::Set(due)) => on_reply(due, command, bytes),
        _ => Effect::Waits,
    }
}

// Returns what no answer does to a follower that is this far: one that waits stops.
pub(crate) fn of_silence(standing: Standing) -> Effect
    ensures { result ≡ effect_at standing no_answer }
{
    match standing {
        Standing::Waiting(_) => Effect::Stops,
        _ => Effect::Waits,
    }
}
