use ports::System;

// The places of the arguments.
pub(crate) const LINE: usize = 1;

pub(crate) const START: usize = 2;

pub(crate) const END: usize = 3;

pub(crate) const PRODUCT: usize = 4;

pub(crate) const VERSION: usize = 5;

pub(crate) const SERIAL: usize = 6;

// Copies an argument into a buffer and returns it, or none where the choice is left to the program: there is none, or a minus alone.
pub(crate) fn word<'a>(system: System, place: usize, into: &'a mut [u8]) -> Option<&'a [u8]> {
    ports::arg(system, place, into).filter(|word| !matches!(*word, b"" | b"-"))
}

// Returns the number that four hex digits are, of which A to F may be lower case: `from_str_radix` would take a plus as one of the four.
pub(crate) fn hex(word: &[u8]) -> Option<u16> {
    let mut number = 0;
    for digit in word.as_array::<4>()? {
        let nibble = char::from(*digit).to_digit(16)?;
        number = number << 4 | (nibble & 0xF) as u16;
    }
    Some(number)
}

// Writes a line to standard error. Nobody would hear that this cannot be written.
pub(crate) fn say(system: System, text: &[u8]) {
    for part in [b"trailer: ", text, b"\n"] {
        let _ = ports::write_all(ports::error(system), part);
    }
}
