ghost use Rattle.std.specs.Prelude.{◌+◌, ◌≤◌, ◌<◌, ◌^◌, ◌≡◌, length};
ghost use Rattle.std.proofs.lemmas.List.Edits.{sets};
ghost use Rattle.laws.specs.Promise.{overlaid};
ghost use Rattle.settings.specs.Columns.{count, width_at};
ghost use Rattle.requests.specs.Requests.{set_request};
ghost use Rattle.restore.specs.Order.{due_sets};
ghost use Rattle.restore.specs.Calls.{frames_for, list_room};

use crate::Size;
use crate::order::Restore;
use requests::Wanted;
use settings::COUNT;

// The room that document 01 fixes for the list: the longest Set (a colon, the command, two digits for each byte of id, flags, value and
// check, and a newline) for every setting.
pub(crate) const LIST_ROOM: usize = 15 * COUNT;

// Puts a Set at a place of the buffer, and returns the place after it. The frame writer wants room for the longest frame, which the buffer
// may not have left, so the Set is written elsewhere and copied.
fn put_set(out: &mut [u8], at: usize, set: Wanted) -> usize
    requires { (at + 15 ≤ length out.old) × (set.setting.index < count) × (set.number < 256 ^ width_at set.setting.index) }
    ensures { (result ≡ at + length (set_request set.setting.index set.number)) × (out.new ≡ sets out.old at (set_request set.setting.index set.number)) }
{
    let mut frame = [0u8; paper::FRAME_ROOM];
    let len = requests::set(set.setting.index, set.number, &mut frame).unwrap();
    spans::copy(&frame[..len], &mut out[at..]);
    at + len
}

// Puts the Sets of a restore to the front of the buffer, end to end, and returns the size of the list.
pub(crate) fn put_sets(restore: &Restore, out: &mut [u8]) -> Size
    requires { list_room ≤ length out.old }
    ensures { (result ≡ record { len = length (frames_for (due_sets restore.now.from restore.now.to)); sets = length (due_sets restore.now.from restore.now.to) }) × (out.new ≡ overlaid (frames_for (due_sets restore.now.from restore.now.to)) out.old) }
{
    let mut len = 0;
    let mut sets = 0;
    for place in 0..COUNT {
        if let Some(set) = restore.set_at(place) {
            len = put_set(out, len, set);
            sets += 1;
        }
    }
    Size { len, sets }
}
