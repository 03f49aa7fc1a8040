// A board: what it is and holds, and the unfinished frame of its serial line. The board itself judges every Set of every setting. Every
// call takes anything, and its promise fixes its answer and every lent byte (specs/Calls.antt).
#![tactic(auto)]

ghost use Rattle.std.specs.Prelude.{◌≡◌, length};
ghost use Rattle.laws.specs.Promise.{Gives};
ghost use Rattle.tables.specs.Rules.{factory};
ghost use Rattle.board.specs.Parts.{fresh_board, board_allowed};
ghost use Rattle.board.specs.Calls.{starting, refused_start, storing, answering, unanswered};
ghost use Rattle.board.specs.declared.Answered.{Answered};

use answers::{Core, Outcome};
use paper::Refusal;
use stream::Held;
use tables::Table;
use who::{Identity, Named, Readings};

mod hearing;
mod measured;

// Five readings as they are handed in, in more bits than a board stores: it stores them all or none.
#[derive(Clone, Copy, PartialEq, Eq)]
pub struct Sample {
    pub voltage: i64,
    pub current: i64,
    pub fine: i64,
    pub consumed: i64,
    pub charge: i64,
}

// A board: what it is and holds, and the unfinished frame of its serial line.
#[derive(Clone, Copy, PartialEq, Eq)]
pub struct Board {
    pub core: Core,
    pub held: Held,
}

// A board, and whether what was asked of it was accepted. The board is there under a refusal too: document 01 says what a refused start
// returns, and hands a state back as it was.
#[derive(Clone, Copy, PartialEq, Eq)]
pub struct Handed {
    pub board: Board,
    pub verdict: Result<(), Refusal>,
}

// What a call on a piece of input answers: the advanced board, the outcome, the reply's length, and how many bytes it took. Document 01 has
// the length here: "A reply fills the front of the lent buffer".
#[derive(Clone, Copy, PartialEq, Eq)]
pub struct Answered {
    pub board: Board,
    pub outcome: Outcome,
    pub len: usize,
    pub taken: usize,
}

impl Board {
    // Starts a board with an identity and a table: readings 0 and no frame. Refuses 12 for a serial that is too long or has a byte outside
    // 0x20..0x7E, or a table that is not allowed; then product and version 0, an empty serial and the factory table. The three of the
    // identity are handed in apart: an identity is what comes of them, or is refused.
    #[tactic(auto, unfolding(crate::specs::Calls::starting, who::specs::Calls::naming))]
    pub fn start(product: u16, version: u16, serial: &[u8], table: Table) -> Handed
        ensures { result ≡ starting product version serial.now table }
    {
        // A table that is refused is answered without a look at the serial.
        if !table.is_allowed() {
            return refused_start();
        }
        let Named { identity, verdict } = Identity::named(product, version, serial);
        if verdict.is_err() {
            return refused_start();
        }
        Handed {
            board: fresh(identity, table),
            verdict: Ok(()),
        }
    }

    // Starts a board with the factory table. An identity is what comes of the three.
    pub fn start_factory(product: u16, version: u16, serial: &[u8]) -> Handed
        ensures { result ≡ starting product version serial.now factory }
    {
        Board::start(product, version, serial, Table::factory())
    }

    // Stores five readings, or none: refuses 12 for a board that is not allowed, or a number that does not fit its width.
    #[tactic(auto, unfolding(crate::specs::Calls::storing))]
    pub fn store(self, given: Sample) -> Handed
        ensures { result ≡ storing self given }
    {
        match measured::readings_of(given) {
            Some(readings) if self.is_allowed() => Handed {
                board: Board {
                    core: Core {
                        readings,
                        ..self.core
                    },
                    ..self
                },
                verdict: Ok(()),
            },
            _ => Handed {
                board: self,
                verdict: Err(Refusal::NotAllowed),
            },
        }
    }

    // Takes a piece of input up to the first byte that ends a frame, and answers that frame at the front of `reply`. Refuses 11 under 75
    // bytes of room, then 12 for a board that is not allowed; then nothing is taken or written.
    pub fn answer(self, piece: &[u8], reply: &mut [u8]) -> Answered
        ensures { Gives Answered (answering self piece.now (length reply.old)) reply.old result reply.new }
    {
        if reply.len() < paper::FRAME_ROOM {
            return unanswered(self, Refusal::ShortBuffer);
        }
        if !self.core.is_allowed() {
            return unanswered(self, Refusal::NotAllowed);
        }
        hearing::heard(self, piece, reply)
    }

    // Returns whether the board is allowed: what it is and holds, and its unfinished frame.
    #[tactic(auto, unfolding(crate::specs::Parts::board_allowed))]
    pub fn is_allowed(self) -> bool
        ensures { result ≡ board_allowed self }
    {
        self.core.is_allowed() & self.held.is_allowed()
    }
}

// Returns a board that has just been started: readings 0 and no frame.
#[tactic(auto, unfolding(crate::specs::Parts::fresh_board))]
fn fresh(identity: Identity, table: Table) -> Board
    ensures { result ≡ fresh_board identity table }
{
    Board {
        core: Core {
            identity,
            table,
            readings: Readings::nothing(),
        },
        held: Held::outside(),
    }
}

// Refuses a start by 12: product and version 0, an empty serial and the factory table.
#[tactic(auto, unfolding(crate::specs::Calls::refused_start, who::specs::Calls::naming, who::specs::Parts::serial_fits, who::specs::Parts::no_identity))]
fn refused_start() -> Handed
    ensures { result ≡ refused_start }
{
    let nobody = Identity::named(0, 0, &[]).identity;
    Handed {
        board: fresh(nobody, Table::factory()),
        verdict: Err(Refusal::NotAllowed),
    }
}

// Refuses a call: the board is as it was, nothing is taken, and there is no reply.
fn unanswered(board: Board, refusal: Refusal) -> Answered
    ensures { result ≡ (unanswered board refusal).answer }
{
    Answered {
        board,
        outcome: Outcome::Refused(refusal),
        len: 0,
        taken: 0,
    }
}
