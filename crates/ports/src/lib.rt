// What the programs read and write, over the standard library: arguments, files, serial lines, standard input and output. A path, an
// argument and a text are bytes; the standard library opens a path only if it is UTF-8. No contract can say what a file or a line gives.
#![tactic(auto)]

ghost use Rattle.std.specs.Prelude.{◌≡◌, ◌≤◌, ◌-◌, length, take, IfOk, IfSome};

use std::env::{Env, FillError};
use std::fs::{File, OpenOptions, Permissions};
use std::io::{Error, ErrorKind, IsTerminal, Read, Seek, Stderr, Stdout, Write};
use std::os::unix::fs::{OpenOptionsExt, PermissionsExt};
use std::random::RandomSource;
use std::{fs, io};

// The system, which `main` is given.
pub type System = HostRuntime;

// The system's numbers for: nothing is there, it is a folder.
pub const NOTHING_THERE: i32 = 2;

pub const A_FOLDER: i32 = 21;

// Its numbers for bytes that are no text, and for an argument that it can only refuse.
const NO_TEXT: i32 = 84;

const INVALID: i32 = 22;

// 4,096 zeros, which hold any path. Two functions and no const parameter: so no caller names a size, and each size stands once.
pub fn buffer() -> [u8; 4096]
    ensures { 4096 ≡ length result }
{
    [0; 4096]
}

// 65,536 zeros.
pub fn large_buffer() -> [u8; 65536]
    ensures { 65536 ≡ length result }
{
    [0; 65536]
}

// Copies an argument into a buffer and returns it: none where there is none, or where it is longer than the buffer.
pub fn arg<'a>(system: System, place: usize, into: &'a mut [u8]) -> Option<&'a [u8]>
    ensures { IfSome result (λ word. length word.now ≤ length into.old) }
{
    let len = system.arg(place, into).ok()?;
    Some(&into[..len])
}

// Returns whether there is an argument at a place.
fn has_arg(system: System, place: usize) -> bool {
    !matches!(system.arg(place, &mut [0; 1]), Err(FillError::NotPresent))
}

// Returns how many arguments there are, the program's own name among them.
pub fn arg_count(system: System) -> usize {
    (0..usize::MAX)
        .find(|place| !has_arg(system, *place))
        .unwrap_or(usize::MAX)
}

// Where a program writes its report, its bytes or its complaints.
#[derive(Clone, Copy)]
pub enum Report {
    Output(Stdout),
    Error(Stderr),
}

// Returns standard output.
pub fn output(system: System) -> Report {
    Report::Output(system.stdout())
}

// Returns standard error.
pub fn error(system: System) -> Report {
    Report::Error(system.stderr())
}

// Writes all of a text to a report.
pub fn write_all(report: Report, text: &[u8]) -> io::Result<()> {
    match report {
        Report::Output(mut stdout) => stdout.write_all(text),
        Report::Error(mut stderr) => stderr.write_all(text),
    }
}

// A serial line, standard input and output in its place, or none, from which nothing comes and to which nothing goes.
#[derive(Drop)]
pub enum Port {
    None,
    Standard(System),
    Device(File),
}

// Reads once from a line, and returns how many bytes are at the front of a buffer.
pub fn read(port: &Port, into: &mut [u8]) -> io::Result<usize>
    ensures { IfOk result (λ n. n ≤ length into.new) }
{
    match port {
        Port::None => Err(Error::from(ErrorKind::NotConnected)),
        Port::Standard(system) => system.stdin().read(into),
        Port::Device(file) => {
            let mut from = file;
            from.read(into)
        }
    }
}

// Returns how many bytes a read has put at the front of a buffer, no more than it has; 0 where it failed.
pub fn count(got: Option<usize>, buffer: &[u8]) -> usize
    ensures { result ≤ length buffer.now }
{
    match got {
        Some(n) => n.min(buffer.len()),
        None => 0,
    }
}

// Writes all of a text to a line.
pub fn send(port: &Port, text: &[u8]) -> io::Result<()> {
    match port {
        Port::None => Err(Error::from(ErrorKind::NotConnected)),
        Port::Standard(system) => write_all(output(*system), text),
        Port::Device(file) => write_file(file, text),
    }
}

// Returns whether a line is a terminal, as serial lines are.
pub fn is_terminal(port: &Port) -> bool {
    match port {
        Port::None => false,
        Port::Standard(system) => system.stdin().is_terminal(),
        Port::Device(file) => file.is_terminal(),
    }
}

// The path of bytes, or the system's reason for one that is no text.
fn path_of(path: &[u8]) -> io::Result<&str> {
    str::from_utf8(path).map_err(|_| Error::from_raw_os_error(NO_TEXT))
}

// Opens a file for reading.
pub fn open_read(system: System, path: &[u8]) -> io::Result<File> {
    fs::open(&system, path_of(path)?)
}

// Opens a file or a device for reading and writing, and leaves its bytes as they are.
pub fn open_update(system: System, path: &[u8]) -> io::Result<File> {
    let mut how = OpenOptions::new();
    how.read(true).write(true);
    how.open(&system, path_of(path)?)
}

// Opens a file for writing and empties it, or creates it where it is missing.
pub fn open_overwrite(system: System, path: &[u8]) -> io::Result<File> {
    fs::create(&system, path_of(path)?)
}

// Reads until a buffer is full, the file ends or a read fails, and returns what was read.
pub fn read_full<'a>(file: &File, into: &'a mut [u8]) -> &'a [u8]
    ensures { length result.now ≤ length into.old }
{
    let mut from = file;
    let mut len = 0;
    while let Ok(n @ 1..) = from.read(&mut into[len..]) {
        len += n;
    }
    &into[..len]
}

// Returns whether a file has nothing more to read: a read gives nothing, and does not fail.
pub fn is_at_end(mut file: &File) -> bool {
    matches!(file.read(&mut [0; 1]), Ok(0))
}

// Returns whether what was opened has a position, as a file on a disk and no serial line.
pub fn is_file(mut file: &File) -> bool {
    file.stream_position().is_ok()
}

// Returns whether what was opened is a file on a disk: it has a position and can be seen to the disk.
pub fn is_plain(file: &File) -> bool {
    is_file(file) && file.sync_all().is_ok()
}

// Returns whether a path is a link.
pub fn is_link(system: System, path: &[u8]) -> bool {
    path_of(path)
        .and_then(|path| fs::symlink_metadata(&system, path))
        .is_ok_and(|found| found.is_symlink())
}

// Writes a text to a new file, sets who may read and write it, and makes sure that it is on the disk.
pub fn fill(file: &File, text: &[u8], mode: u32) -> io::Result<()> {
    write_file(file, text)?;
    file.set_permissions(Permissions::from_mode(mode))?;
    file.sync_all()
}

// Writes all of a text to a file.
pub fn write_file(mut file: &File, text: &[u8]) -> io::Result<()> {
    file.write_all(text)
}

// Opens a new file by its whole name, which only its owner may read and write.
fn create_new(system: System, name: &[u8]) -> io::Result<File> {
    let mut how = OpenOptions::new();
    how.read(true).write(true).create_new(true).mode(0o600);
    how.open(&system, path_of(name)?)
}

// Gives a file another name.
pub fn rename(system: System, from: &[u8], to: &[u8]) -> io::Result<()> {
    fs::rename(&system, path_of(from)?, path_of(to)?)
}

// Removes a file.
pub fn remove(system: System, name: &[u8]) -> io::Result<()> {
    fs::remove_file(&system, path_of(name)?)
}

// Makes sure that the names in a folder are on the disk.
pub fn sync_folder(system: System, path: &[u8]) -> io::Result<()> {
    open_read(system, path)?.sync_all()
}

// Returns the system's number for an error. What the system was not asked, since it can only refuse it, is an invalid argument.
pub fn number_of(error: Error) -> i32 {
    error.raw_os_error().unwrap_or(INVALID)
}

// How many names are tried for a temporary file, and how many of their characters are drawn.
const TRIES: u32 = 1000;

const DRAWN: usize = 6;

// The characters of a name that is drawn.
const LETTERS: [u8; 62] = *b"ABCDEFGHIJKLMNOPQRSTUVWXYZabcdefghijklmnopqrstuvwxyz0123456789";

// Returns a character that is drawn.
fn letter(drawn: u8) -> u8 {
    LETTERS[drawn as usize % 62]
}

// Draws the end of a name.
fn draw(system: System, end: &mut [u8]) -> io::Result<()> {
    system.fill_bytes(end)?;
    for c in end.iter_mut() {
        *c = letter(*c);
    }
    Ok(())
}

// Creates a file of a name whose end is drawn, which no file had; only its owner may read and write it.
fn create_drawn(system: System, name: &mut [u8], from: usize) -> io::Result<File>
    requires { from ≤ length name.old }
    ensures { take from name.new ≡ take from name.old }
{
    for _ in 0..TRIES {
        draw(system, &mut name[from..])?;
        match create_new(system, name) {
            Ok(file) => return Ok(file),
            Err(error) if error.kind() == ErrorKind::AlreadyExists => {}
            Err(error) => return Err(error),
        }
    }
    Err(Error::from(ErrorKind::AlreadyExists))
}

// Creates a temporary file. The name ends in XXXXXX, which is drawn until no file has the name. Where that fails, the name is as it was.
pub fn create_temp(system: System, name: &mut [u8]) -> io::Result<File>
    ensures { take (length name.old - 6) name.new ≡ take (length name.old - 6) name.old }
{
    if name.len() < DRAWN {
        return Err(Error::from_raw_os_error(INVALID));
    }
    let from = name.len() - DRAWN;
    let created = create_drawn(system, name, from);
    if created.is_err() {
        name[from..].fill(b'X');
    }
    created
}

// Returns the system's reason in an error's text, with zeros after it: a blank and the reason's number in brackets may follow it.
fn reason_in(text: &[u8]) -> &[u8] {
    let end = text.iter().position(|c| matches!(c, 0 | b'('));
    text[..end.unwrap_or(text.len())].trim_ascii_end()
}

// Writes a line to standard error: what failed, a colon, and the system's reason. Nobody would hear that this cannot be written.
pub fn fail(system: System, what: &[u8], error: Error) {
    let reason = Error::from_raw_os_error(number_of(error));
    let mut text = [0; 128];
    let _ = write!(&mut text[..], "{reason}");
    for part in [what, b": ", reason_in(&text), b"\n"] {
        let _ = write_all(self::error(system), part);
    }
}
