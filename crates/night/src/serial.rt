// The serial line, or standard input and output in its place.
use crate::{clock, words};
use ports::{Port, Report, System};

// Where to read, to write and to report, and when it was opened, if there is a clock.
#[derive(Drop)]
pub(crate) struct Ends {
    pub(crate) port: Port,
    pub(crate) system: System,
    pub(crate) report: Report,
    pub(crate) begun: Option<u64>,
}

// Why a serial line is not open: it is a file, or the system's number for its reason (`words::put_reason` tells by numbers, since EACCES and
// EPERM are one `ErrorKind`).
#[derive(Clone, Copy)]
pub(crate) enum NotOpen {
    File,
    Reason(i32),
}

// Opens a device. A file, which has a position as no serial line has, is closed again, before anything is written over it.
fn device(system: System, path: &[u8]) -> Result<Port, NotOpen> {
    match ports::open_update(system, path) {
        Ok(file) if ports::is_file(&file) => Err(NotOpen::File),
        Ok(device) => Ok(Port::Device(device)),
        Err(error) => {
            ports::fail(system, path, error);
            Err(NotOpen::Reason(ports::number_of(error)))
        }
    }
}

// Opens a serial line: a device that is read and written, or - for standard input and output. The clock is read either way, and where there
// is none, it says so.
pub(crate) fn open(system: System, path: &[u8]) -> Result<Ends, NotOpen> {
    let (port, report) = match path {
        b"-" => (Ok(Port::Standard(system)), ports::error(system)),
        _ => (device(system, path), ports::output(system)),
    };
    let begun = clock::time(system);
    Ok(Ends {
        port: port?,
        system,
        report,
        begun,
    })
}

// Opens the serial line that the first argument names, or says why it cannot, and that nothing was sent.
pub(crate) fn first(system: System) -> Option<Ends> {
    let mut room = ports::buffer();
    let path = words::arg(system, words::FIRST, &mut room);
    let report = ports::output(system);
    match open(system, path) {
        Ok(ends) => return Some(ends),
        Err(NotOpen::File) => {
            words::put(report, path);
            words::say(report, b" is a file and no line: nothing was sent");
        }
        Err(NotOpen::Reason(_)) => {
            words::say(report, b"nothing was sent: the line cannot be opened")
        }
    }
    None
}
