// Who a board is, what it measures, and what of it is read out. Every call takes anything, and its promise fixes its answer
// (specs/Calls.antt).
#![tactic(auto)]

ghost use Rattle.std.specs.Prelude.{◌≡◌};
ghost use Rattle.who.specs.Parts.{identity_allowed, no_readings};
ghost use Rattle.who.specs.Calls.{naming, reading_out};

use paper::{MOST_SERIAL, Refusal};
use spans::Few;

mod names;
mod numbers;
mod values;

// Who a board is: product and version of two bytes, and a serial of 0 to 32 bytes.
#[derive(Clone, Copy, PartialEq, Eq)]
pub struct Identity {
    pub product: u16,
    pub version: u16,
    pub serial: Few<MOST_SERIAL>,
}

// An identity, and whether the one that was asked for was accepted. Both are there, since document 01 says what a refused start returns:
// product and version 0, an empty serial.
#[derive(Clone, Copy, PartialEq, Eq)]
pub struct Named {
    pub identity: Identity,
    pub verdict: Result<(), Refusal>,
}

// What a board measures, at the published widths: 0.01 V, 0.1 A, 0.001 A, 0.1 Ah, 0.01 %.
#[derive(Clone, Copy, PartialEq, Eq)]
pub struct Readings {
    pub voltage: i16,
    pub current: i16,
    pub fine: i32,
    pub consumed: i32,
    pub charge: u16,
}

// A read-only value of up to 32 bytes.
pub type Value = Few<MOST_SERIAL>;

impl Identity {
    // Returns the identity of a product, a version and a serial: 12 for a serial over 32 bytes or with a byte outside 0x20..0x7E, and then
    // product and version 0 and an empty serial. The three are handed in apart, for an identity is what comes of them.
    #[tactic(auto, unfolding(crate::specs::Calls::naming, crate::specs::Parts::serial_fits, crate::specs::Parts::no_identity))]
    pub fn named(product: u16, version: u16, serial: &[u8]) -> Named
        ensures { result ≡ naming product version serial.now }
    {
        if names::serial_fits(serial) {
            Named {
                identity: names::identity_of(product, version, serial),
                verdict: Ok(()),
            }
        } else {
            Named {
                identity: names::identity_of(0, 0, &[]),
                verdict: Err(Refusal::NotAllowed),
            }
        }
    }

    // Returns whether the serial fits, and is tidy.
    #[tactic(auto, unfolding(crate::specs::Parts::identity_allowed, crate::specs::Parts::serial_of))]
    pub fn is_allowed(self) -> bool
        ensures { result ≡ identity_allowed self }
    {
        self.serial.is_tidy() && spans::all(self.serial.as_slice(), names::PRINTED)
    }
}

impl Readings {
    // Returns the readings of a board that has measured nothing: all 0. No derived default: the edits voltage_not_zero and
    // readings_not_zero change one of the five lines.
    pub fn nothing() -> Readings
        ensures { result ≡ no_readings }
    {
        Readings {
            voltage: 0,
            current: 0,
            fine: 0,
            consumed: 0,
            charge: 0,
        }
    }
}

// Returns the value of a read-only id: 12 for an identity that is not allowed, then 7 for an id that is not read-only. Identity and
// readings are two parameters, as the clause has them; the `Core` of answers that holds both holds a table too.
#[tactic(auto, unfolding(crate::specs::Calls::reading_out))]
pub fn read_only(identity: Identity, readings: Readings, id: u16) -> Result<Value, Refusal>
    ensures { result ≡ reading_out identity readings id }
{
    if !identity.is_allowed() {
        return Err(Refusal::NotAllowed);
    }
    values::looked(identity, readings, id)
}
