// What a frame says of the id that is due.
ghost use Rattle.std.specs.Prelude.{◌≡◌};
ghost use Rattle.view.specs.Calls.{sight_at};

use crate::{Sight, values};
use reply::Status;

// Returns what a frame comes to, as an answer to the Get of the due id.
#[tactic(auto, using(reply::proofs::Lengths::status_long, laws::proofs::Lists::part_to_end), unfolding(crate::specs::Calls::sight_at))]
pub(crate) fn on_frame(id: u16, command: u8, bytes: &[u8]) -> Sight
    ensures { result ≡ sight_at id command bytes.now }
{
    match reply::heed(paper::GET_CODE, id, command, bytes) {
        None => Sight::Nothing,
        Some(Status::Good) if values::is_understood(id, &bytes[paper::FRONT..]) => {
            Sight::Understood(id)
        }
        Some(_) => Sight::Strange(id),
    }
}
