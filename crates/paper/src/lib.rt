// The numbers that document 01 fixes for more than one crate: refusals, frames, codes, flags and read-only ids. specs/Numbers.antt has each
// with the paper's words beside it, in small letters: a number under its own name, and a refusal as `too_long` for `TooLong`. Promises have
// those names.
#![tactic(auto)]

ghost use Rattle.std.specs.Prelude.{◌≡◌};
ghost use Rattle.paper.specs.Numbers.{number_of};

// A refusal, in document 01's order and with its number.
#[derive(Clone, Copy, PartialEq, Eq)]
pub enum Refusal {
    TooLong = 1,
    NoDigit = 2,
    BadCount = 3,
    BadSum = 4,
    UnknownCommand = 5,
    Malformed = 6,
    UnknownId = 7,
    ReadOnlyId = 8,
    WrongWidth = 9,
    NumberNotAllowed = 10,
    ShortBuffer = 11,
    NotAllowed = 12,
    OtherHeader = 13,
    BadLine = 14,
    OtherId = 15,
    OutOfRange = 16,
    PairDisagrees = 17,
    MoreBytes = 18,
}

impl Refusal {
    // Returns document 01's number of the refusal. A method and no From: its clause names `number_of`, the definition that document 01
    // wants of an answer that is an enum.
    pub fn number(self) -> u8
        ensures { result ≡ number_of self }
    {
        self as u8
    }
}

// Frames: the bytes that begin and end one, the total that its bytes come to, and how much fits.
pub const COLON: u8 = b':';

pub const NEWLINE: u8 = b'\n';

pub const FRAME_TOTAL: u8 = 0x55;

pub const MOST_NIBBLE: u8 = 15;

pub const MOST_DATA: usize = 35;

pub const MOST_CHARS: usize = 73;

pub const FRAME_ROOM: usize = 75;

// The commands that a board knows. Codes and flags are numbers, and no enum: a frame has any number there, and the definitions of
// specs/Numbers.antt are numbers.
pub const PING_CODE: u8 = 1;

pub const VERSION_CODE: u8 = 3;

pub const PRODUCT_CODE: u8 = 4;

pub const RESTART_CODE: u8 = 6;

pub const GET_CODE: u8 = 7;

pub const SET_CODE: u8 = 8;

pub const ASYNC_CODE: u8 = 0xA;

// The codes of its responses; Get and Set answer with their own codes.
pub const DONE_CODE: u8 = 1;

pub const UNKNOWN_CODE: u8 = 3;

pub const ERROR_CODE: u8 = 4;

pub const PONG_CODE: u8 = 5;

// Flags: a request has none, a reply one of four. What a reading makes of one is the enum `Status` of reply.
pub const NO_FLAGS: u8 = 0;

pub const GOOD_FLAG: u8 = 0;

pub const UNKNOWN_FLAG: u8 = 1;

pub const SUPPORT_FLAG: u8 = 2;

pub const PARAMETER_FLAG: u8 = 4;

// An id and the flags come before a value.
pub const FRONT: usize = 3;

// The ids of the read-only values.
pub const PRODUCT_ID: u16 = 0x0100;

pub const SERIAL_ID: u16 = 0x010A;

pub const VERSION_ID: u16 = 0xEEF9;

pub const VOLTAGE_ID: u16 = 0xED8D;

pub const CURRENT_ID: u16 = 0xED8F;

pub const FINE_ID: u16 = 0xED8C;

pub const CONSUMED_ID: u16 = 0xEEFF;

pub const CHARGE_ID: u16 = 0x0FFF;

// The most bytes that a serial has.
pub const MOST_SERIAL: usize = 32;

// The room that a backup text needs.
pub const TEXT_ROOM: usize = 512;
