// What the box asks of a board about a setting, written as a frame: a Get of an id, and a Set of a setting to a number. Every call takes
// anything, and its promise fixes its answer and every lent byte (specs/Calls.antt).
#![tactic(auto, unfolding(crate::specs::Calls::set_written, crate::specs::Calls::writing))]

ghost use Rattle.std.specs.Prelude.{◌≡◌, ◌≤◌, ◌^◌, ltb, length};
ghost use Rattle.std.specs.Option.{ForSome};
ghost use Rattle.laws.specs.Promise.{Gives};
ghost use Rattle.wire.specs.Answers.{Written};
ghost use Rattle.settings.specs.Calls.{placing};
ghost use Rattle.requests.specs.Calls.{get_written, set_found, set_written, named, writing};

use paper::Refusal;
use settings::Setting;

// A Set: the setting, and the number that is wanted for it.
#[derive(Clone, Copy, PartialEq, Eq)]
pub struct Wanted {
    pub setting: Setting,
    pub number: u16,
}

// What the box asks: a Get of an id, or a Set.
#[derive(Clone, Copy, PartialEq, Eq)]
pub enum Request {
    Get(u16),
    Set(Wanted),
}

// Writes a request to the front of `out`. Refuses 11 under 75 bytes of room, then 12 for a Set of no setting, of one whose place and id do
// not belong together, or of a number that its width does not hold.
pub fn write(request: Request, out: &mut [u8]) -> Result<usize, Refusal>
    ensures { Gives Written (writing request (length out.old)) out.old result out.new }
{
    match request {
        Request::Get(id) => get(id, out),
        Request::Set(wanted) => set_found(named(wanted.setting), wanted.number, out),
    }
}

// Returns the setting at the place of one that is handed in, if it has its id.
fn named(setting: Setting) -> Option<Setting>
    ensures { result ≡ named setting }
{
    let here = settings::at(setting.index)?;
    (here.id == setting.id).then_some(here)
}

// Writes a Get of an id to the front of `out`. Refuses 11 under 75 bytes of room.
pub fn get(id: u16, out: &mut [u8]) -> Result<usize, Refusal>
    ensures { Gives Written (get_written id (length out.old)) out.old result out.new }
{
    let [low, high] = endian::bytes_16(id);
    wire::write_frame(paper::GET_CODE, &[low, high, paper::NO_FLAGS], out)
}

// Writes a Set of the setting at a place to the front of `out`. Refuses 11 under 75 bytes of room, then 12 for a place past the table or a
// number that the setting's width does not hold.
pub fn set(index: usize, number: u16, out: &mut [u8]) -> Result<usize, Refusal>
    ensures { Gives Written (set_written index number (length out.old)) out.old result out.new }
{
    set_found(settings::at(index), number, out)
}

// Writes a Set of what a look-up has found.
fn set_found(found: Option<Setting>, number: u16, out: &mut [u8]) -> Result<usize, Refusal>
    requires { ForSome found (λ s. placing s.index ≡ Some s) }
    ensures { Gives Written (set_found found number (length out.old)) out.old result out.new }
{
    if out.len() < paper::FRAME_ROOM {
        return Err(Refusal::ShortBuffer);
    }
    let setting = found.ok_or(Refusal::NotAllowed)?;
    if !holds(setting.width, number) {
        return Err(Refusal::NotAllowed);
    }
    let [low, high] = endian::bytes_16(setting.id);
    let [first, second] = endian::bytes_16(number);
    let bytes = [low, high, paper::NO_FLAGS, first, second];
    wire::write_frame(paper::SET_CODE, &bytes[..paper::FRONT + setting.width], out)
}

// Returns whether a width of one or two bytes holds a number.
fn holds(width: usize, number: u16) -> bool
    requires { (1 ≤ width) × (width ≤ 2) }
    ensures { result ≡ ltb number (256 ^ width) }
{
    (width == 2) | (number < 256)
}
