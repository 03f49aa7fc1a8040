use crate::words::{Answer, Words};
use crate::{numbers, say};
use reply::{Reply, Shown, Status};
use std::io;

// Answers `reply COMMAND DATA`: the kind of a reply.
pub fn reply(rt: &impl Print, mut words: Words) -> Answer {
    let command = numbers::as_8(words.number()?);
    let data = words.bytes()?;
    words.end()?;
    Some(match reply::read(command, &data) {
        Ok(reply) => kind(rt, reply),
        Err(refusal) => say::refused(rt, refusal),
    })
}

// Writes a kind, and what it holds.
fn kind(rt: &impl Print, it: Reply) -> io::Result<()> {
    match it {
        Reply::Done => rt.print(" done"),
        Reply::Unknown { command } => print!(rt; " unknown {command}"),
        Reply::Error { code } => print!(rt; " error {code:04X}"),
        Reply::Ping { version } => print!(rt; " ping {version:04X}"),
        Reply::Get { status, id } => print!(rt; " get {} {id:04X}", word_of(status)),
        Reply::Set { status, id } => print!(rt; " set {} {id:04X}", word_of(status)),
        Reply::Async { status, id } => print!(rt; " async {} {id:04X}", word_of(status)),
    }
}

// Returns the word for a status.
fn word_of(status: Status) -> &'static str {
    match status {
        Status::Good => "good",
        Status::UnknownId => "unknown-id",
        Status::NotSupported => "not-supported",
        Status::ParameterError => "parameter-error",
    }
}

// Answers `show ID VALUE`: a reading in its unit.
pub fn show(rt: &impl Print, mut words: Words) -> Answer {
    let id = words.id()?;
    let value = words.bytes()?;
    words.end()?;
    Some(match reply::show(id, &value) {
        Ok(Shown::Volts(x)) => measured(rt, "volts", x),
        Ok(Shown::Amperes(x)) => measured(rt, "amperes", x),
        Ok(Shown::AmpHours(x)) => measured(rt, "amp-hours", x),
        Ok(Shown::Percent(x)) => measured(rt, "percent", x),
        Err(refusal) => say::refused(rt, refusal),
    })
}

// Writes a unit, and the bits of a double: sign, exponent and fraction. What is no number has none.
fn measured(rt: &impl Print, unit: &str, x: f64) -> io::Result<()> {
    if x.is_nan() {
        return print!(rt; " {unit} no-number");
    }
    let bits = x.to_bits();
    print!(rt; " {unit} {bits:016x}")
}
