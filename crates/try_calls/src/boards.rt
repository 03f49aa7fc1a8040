// Boards: started, given readings, and handed pieces of input.
use crate::bytes::{self, SPACE, lent};
use crate::pieces::hand_on;
use crate::puts::{self, Put};
use crate::words::{Answer, Words};
use crate::{numbers, say};
use answers::Outcome;
use board::{Board, Handed, Sample};
use std::io;

// The board of document 01's worked lines.
const PRODUCT: u16 = 0xA381;

const VERSION: u16 = 0x4401;

// The ids of the readings, in the order in which document 01 lists them.
const READINGS: [u16; 5] = [
    paper::VOLTAGE_ID,
    paper::CURRENT_ID,
    paper::FINE_ID,
    paper::CONSUMED_ID,
    paper::CHARGE_ID,
];

// Answers `board ROOM ITEM ..`: a board with an empty serial, with the settings and readings of the row, is handed its other items.
pub fn board(rt: &impl Print, mut words: Words) -> Answer {
    let room = words.number()?;
    let items = words.rest(|word| Put::is(word) || bytes::is_bytes(word))?;
    Some(hands(rt, board_of(items, &[]), items, room))
}

// Answers `serial ROOM SERIAL PIECE ..`: a board with the factory table and this serial is handed the pieces.
pub fn serial(rt: &impl Print, mut words: Words) -> Answer {
    let room = words.number()?;
    let serial = words.bytes()?;
    let pieces = words.rest(bytes::is_bytes)?;
    Some(hands(rt, board_of(pieces, &serial), pieces, room))
}

// Returns a board with the settings, allowed or not, and the readings of a row's items.
fn board_of(items: Words, serial: &[u8]) -> Board {
    let started = Board::start_factory(PRODUCT, VERSION, serial).board;
    let mut board = started.store(sample(items)).board;
    board.core.table = puts::table_of(items);
    board
}

// Returns the readings of a row's items; one that the row does not name is 0.
fn sample(items: Words) -> Sample {
    let reading = |id| puts::number_for(items, id).map_or(0, numbers::as_signed);
    let [voltage, current, fine, consumed, charge] = READINGS.map(reading);
    Sample {
        voltage,
        current,
        fine,
        consumed,
        charge,
    }
}

// Hands a board the pieces among items, and writes of each call how many bytes it took, the outcome and the reply.
fn hands(rt: &impl Print, board: Board, items: Words, room: usize) -> io::Result<()> {
    let mut board = board;
    for piece in items.filter_map(bytes::bytes) {
        hand_on(&piece, |left| {
            let mut space = [0u8; SPACE];
            let answered = board.answer(left, lent(&mut space, room));
            board = answered.board;
            print!(rt; " {}", answered.taken)?;
            outcome(rt, answered.outcome)?;
            say::bytes(rt, say::front(&space, answered.len))?;
            rt.print(";")?;
            Ok(answered.taken)
        })?;
    }
    Ok(())
}

// Writes an outcome.
fn outcome(rt: &impl Print, met: Outcome) -> io::Result<()> {
    match met {
        Outcome::Nothing => rt.print(" nothing"),
        Outcome::Answered => rt.print(" answered"),
        Outcome::Restarted => rt.print(" restarted"),
        Outcome::Ignored => rt.print(" ignored"),
        Outcome::Refused(refusal) => say::refused(rt, refusal),
    }
}

// Answers `start PRODUCT VERSION SERIAL SETTING ..` with what comes back: product, version, serial and the settings that are not the
// factory's.
pub fn start(rt: &impl Print, mut words: Words) -> Answer {
    let product = words.id()?;
    let version = words.id()?;
    let serial = words.bytes()?;
    let table = puts::table_of(words.rest(Put::is)?);
    let started = Board::start(product, version, &serial, table);
    Some(begun(rt, started))
}

// Writes what a start returns.
fn begun(rt: &impl Print, started: Handed) -> io::Result<()> {
    say::verdict(rt, started.verdict)?;
    let core = started.board.core;
    let who = core.identity;
    print!(rt; " {:04X} {:04X}", who.product, who.version)?;
    say::bytes(rt, who.serial.as_slice())?;
    puts::differences(rt, core.table)
}

// Answers `store READING ..`: five readings are stored in a board whose readings are 1 before; then each of them is asked for.
pub fn store(rt: &impl Print, words: Words) -> Answer {
    let readings = words.rest(Put::is)?;
    Some(stored(rt, ones().store(sample(readings))))
}

// Returns a board whose five readings are 1.
fn ones() -> Board {
    let started = Board::start_factory(PRODUCT, VERSION, &[]).board;
    started
        .store(Sample {
            voltage: 1,
            current: 1,
            fine: 1,
            consumed: 1,
            charge: 1,
        })
        .board
}

// Writes what a store returns, and the replies to the Gets of its board's readings.
fn stored(rt: &impl Print, stored: Handed) -> io::Result<()> {
    say::verdict(rt, stored.verdict)?;
    for id in READINGS {
        asked(rt, stored.board, id)?;
    }
    Ok(())
}

// Writes the reply to a Get.
fn asked(rt: &impl Print, board: Board, id: u16) -> io::Result<()> {
    let mut request = [0u8; SPACE];
    let len = match requests::get(id, &mut request) {
        Ok(len) => len,
        Err(refusal) => return say::refused(rt, refusal),
    };
    let mut reply = [0u8; SPACE];
    let answered = board.answer(say::front(&request, len), &mut reply);
    say::bytes(rt, say::front(&reply, answered.len))
}
