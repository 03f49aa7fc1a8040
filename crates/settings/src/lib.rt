// The settings of document 01: the constant table, the pairs, and the nearest allowed number. Every call takes anything, and its promise
// fixes its answer (specs/Calls.antt).
#![tactic(auto, unfolding(crate::specs::Calls::placing, crate::specs::Calls::finding, crate::specs::Calls::ranging, crate::specs::Calls::allowing, crate::specs::Calls::nearing))]

ghost use Rattle.std.specs.Prelude.{◌≡◌};
ghost use Rattle.settings.specs.Columns.{factories};
ghost use Rattle.settings.specs.Rules.{all_allowed};
ghost use Rattle.settings.specs.Calls.{finding, placing, setting_at, ranging, allowing, nearing};

use columns::Place;
use paper::Refusal;

mod columns;
mod rules;
mod window;

// The number of settings.
pub const COUNT: usize = 26;

// A setting: its place in the table, its id, its width in bytes, and the place of the other one of its pair (its own where it is alone).
#[derive(Clone, Copy, PartialEq, Eq)]
pub struct Setting {
    pub index: usize,
    pub id: u16,
    pub width: usize,
    pub partner: usize,
}

// Returns the setting of an id, or none.
pub fn find(id: u16) -> Option<Setting>
    ensures { result ≡ finding id }
{
    Place::of(id).map(|place| place.setting())
}

// Returns the setting at a place of the table, or none past its end.
pub fn at(index: usize) -> Option<Setting>
    ensures { result ≡ placing index }
{
    Place::new(index).map(|place| place.setting())
}

// Returns the setting at a place of the table, for a caller who knows that there is one. Past the table it is one with neither id nor
// width, whose partner is past the table too. The law PastIsNothing says so.
pub fn setting_at(index: usize) -> Setting
    ensures { result ≡ setting_at index }
{
    at(index).unwrap_or(Setting {
        index,
        id: 0,
        width: 0,
        partner: COUNT,
    })
}

// Returns whether a number is in the setting's own range; false past the end of the table.
pub fn in_range(index: usize, number: u16) -> bool
    ensures { result ≡ ranging index number }
{
    Place::new(index).is_some_and(|place| place.in_range(number))
}

// Returns whether a number is allowed for a setting while its partner holds another; false past the end of the table.
pub fn allows(index: usize, number: u16, partner: u16) -> bool
    ensures { result ≡ allowing index number partner }
{
    Place::new(index).is_some_and(|place| place.allows(number, partner))
}

// Returns the nearest allowed number for a setting, given its partner's number: 7 for an id that is no setting, 12 for a partner's number
// outside its own range. The partner's number is unused where there is no partner.
pub fn nearest(id: u16, wished: u16, partner: u16) -> Result<u16, Refusal>
    ensures { result ≡ nearing id wished partner }
{
    let place = Place::of(id).ok_or(Refusal::UnknownId)?;
    if !place.fits(partner) {
        return Err(Refusal::NotAllowed);
    }
    Ok(place.nearest(wished, partner))
}

// Returns whether every number is in its own range and every pair agrees. It takes all numbers at once, because each use of a constant
// column makes the whole array anew.
pub fn all_allowed(numbers: [u16; COUNT]) -> bool
    ensures { result ≡ all_allowed numbers }
{
    rules::all_in_range(numbers) & rules::all_agree(numbers)
}

// Returns the factory numbers of all settings.
pub fn factory_numbers() -> [u16; COUNT]
    ensures { result ≡ factories }
{
    columns::FACTORIES
}
