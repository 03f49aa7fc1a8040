// Which values are understood. A product has the form that the paper gives it, a serial is one that a board can have, and the version and
// the readings have their width. What they say is in `sentences`.
ghost use Rattle.std.specs.Prelude.{◌≡◌};
ghost use Rattle.view.specs.Values.{product_fits, is_understood};

use crate::serial;

// Returns whether a value has the form of a product: four bytes, of which the outer two are fixed.
#[tactic(auto, unfolding(crate::specs::Values::product_fits))]
fn is_product(value: &[u8]) -> bool
    ensures { result ≡ product_fits value.now }
{
    matches!(value, [0x00, _, _, 0xFF])
}

// Returns whether a value has the form that its id has. The id is a number, as in the clause, which takes any: one without a case here has two
// bytes there too (`width_of`).
#[tactic(auto, unfolding(crate::specs::Values::is_understood))]
pub(crate) fn is_understood(id: u16, value: &[u8]) -> bool
    ensures { result ≡ is_understood id value.now }
{
    match id {
        paper::PRODUCT_ID => is_product(value),
        paper::SERIAL_ID => serial::is_serial(value),
        paper::FINE_ID | paper::CONSUMED_ID => value.len() == 4,
        _ => value.len() == 2,
    }
}
