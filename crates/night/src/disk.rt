// What is at a path. Kinds are told by what the system lets be done.
use ports::System;
use std::fs::File;
use std::io::{Error, ErrorKind};

// What is there: nothing, a file, a link, a folder, a device or a pipe, or what cannot be opened.
#[derive(Clone, Copy)]
pub(crate) enum Kind {
    Nothing,
    File,
    Link,
    Folder,
    Device,
    Shut,
}

// Returns the kind of what was opened.
fn kind_of(file: File) -> Kind {
    if ports::is_plain(&file) {
        Kind::File
    } else {
        Kind::Device
    }
}

// Returns the kind of what could not be opened for writing: it may still be read.
fn kind_shut(system: System, path: &[u8], error: Error) -> Kind {
    match error.kind() {
        ErrorKind::NotFound => Kind::Nothing,
        ErrorKind::IsADirectory => Kind::Folder,
        _ => ports::open_read(system, path).map_or(Kind::Shut, kind_of),
    }
}

// Returns what is at a path. It is opened for both ways first: a pipe that is opened for reading alone waits for a writer.
pub(crate) fn at(system: System, path: &[u8]) -> Kind {
    if ports::is_link(system, path) {
        return Kind::Link;
    }
    match ports::open_update(system, path) {
        Ok(file) => kind_of(file),
        Err(error) => kind_shut(system, path, error),
    }
}
