use crate::{end, words};
use board::Board;
use ports::{Port, System};
use std::io;

// How many reads of a second each may give nothing before a device is given up: a day.
const MOST_QUIET: usize = 86400;

// Answers all frames of a piece. Every call takes at least one byte, so there are no more turns than bytes. `&reply[..answered.len]` was
// tried: that the length fits is known only through the bytes that `answering` defines, and the proof did not close.
fn answer_all(board: &mut Board, piece: &[u8], line: &Port) {
    let mut rest = piece;
    for _ in 0..piece.len() {
        let mut reply = [0; paper::FRAME_ROOM];
        let answered = board.answer(rest, &mut reply);
        *board = answered.board;
        let _ = ports::send(line, reply.get(..answered.len).unwrap_or_default());
        rest = rest.get(answered.taken..).unwrap_or_default();
        if rest.is_empty() {
            break;
        }
    }
}

// Reads once, answers what was read, and returns how many bytes that was.
fn turn(board: &mut Board, line: &Port) -> io::Result<usize> {
    let mut room = ports::buffer();
    let len = ports::read(line, &mut room)?;
    answer_all(board, &room[..len], line);
    Ok(len)
}

// Serves a line until a read fails, or this many in turn give nothing. A loop must be seen to end, so there is a last turn, which no
// line reaches.
fn served(board: Board, line: &Port, most_quiet: usize) -> Board {
    let mut board = board;
    let mut quiet = 0;
    for _ in 0..u64::MAX {
        match turn(&mut board, line) {
            Ok(0) => quiet += 1,
            Ok(_) => quiet = 0,
            Err(_) => break,
        }
        if most_quiet <= quiet {
            break;
        }
    }
    board
}

// Serves the serial line that the arguments ask for, and stores the settings at its end. The input ends where a read gives nothing; on a
// device that is a second of silence.
pub(crate) fn line(system: System, board: Board) {
    let mut room = ports::buffer();
    match words::word(system, words::LINE, &mut room) {
        Some(path) => line_at(system, board, path),
        None => end::store(system, served(board, &Port::Standard(system), 1)),
    }
}

// Serves the device at a path, likewise.
fn line_at(system: System, board: Board, path: &[u8]) {
    match ports::open_update(system, path) {
        Ok(file) => end::store(system, served(board, &Port::Device(file), MOST_QUIET)),
        Err(error) => {
            ports::fail(system, path, error);
            words::say(system, b"not started: LINE cannot be opened");
        }
    }
}
