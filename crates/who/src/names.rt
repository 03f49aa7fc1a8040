// The identity of a serial. A serial is tidy, so that an identity has one form.
ghost use Rattle.std.specs.Prelude.{◌≡◌, length, ◌≤◌};
ghost use Rattle.paper.specs.Numbers.{most_serial};
ghost use Rattle.who.specs.Parts.{serial_fits, identity_of};

use crate::{Identity, numbers};
use spans::{Few, Within};

// The bytes that a serial may have.
pub(crate) const PRINTED: Within = Within {
    low: numbers::FIRST_PRINTED,
    high: numbers::LAST_PRINTED,
};

// Returns whether a board can be started with this serial.
#[tactic(auto, unfolding(crate::specs::Parts::serial_fits))]
pub(crate) fn serial_fits(serial: &[u8]) -> bool
    ensures { result ≡ serial_fits serial.now }
{
    (serial.len() <= paper::MOST_SERIAL) & spans::all(serial, PRINTED)
}

// Returns the identity of a product, a version and a serial. An identity is what comes of the three, so they are parameters.
pub(crate) fn identity_of(product: u16, version: u16, serial: &[u8]) -> Identity
    requires { length serial.now ≤ most_serial }
    ensures { result ≡ identity_of product version serial.now }
{
    Identity {
        product,
        version,
        serial: Few::of(serial),
    }
}
