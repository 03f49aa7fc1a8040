ghost use Rattle.std.specs.Prelude.{◌≡◌, Some, None, cond};
ghost use Rattle.board.specs.Parts.{sample_fits, readings_of};

use crate::Sample;
use who::Readings;

// Returns five numbers as readings, at the published widths, or none where one does not fit.
#[tactic(auto, unfolding(crate::specs::Parts::sample_fits, crate::specs::Parts::readings_of))]
pub(crate) fn readings_of(given: Sample) -> Option<Readings>
    ensures { result ≡ cond (sample_fits given) (Some (readings_of given)) None }
{
    Some(Readings {
        voltage: i16::try_from(given.voltage).ok()?,
        current: i16::try_from(given.current).ok()?,
        fine: i32::try_from(given.fine).ok()?,
        consumed: i32::try_from(given.consumed).ok()?,
        charge: u16::try_from(given.charge).ok()?,
    })
}
