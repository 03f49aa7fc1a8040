// Document 01's rule for the bytes of a serial.

// The first and the last byte that a serial may have.
pub(crate) const FIRST_PRINTED: u8 = 0x20;

pub(crate) const LAST_PRINTED: u8 = 0x7E;
