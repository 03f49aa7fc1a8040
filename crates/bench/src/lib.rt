// The stream and the board as plain C calls: the caller hands over all bytes at once and says how they are cut, and the state stays inside
// the call. Each takes anything, and its promise fixes its answer and every lent byte (specs/Calls.antt).
#![tactic(auto)]

ghost use Rattle.std.specs.Prelude.{ℕ, ◌≡◌, length, take};
ghost use Rattle.laws.specs.Promise.{Gives};
ghost use Rattle.stream.specs.Calls.{held_of};
ghost use Rattle.stream.specs.Stream.{outside};
ghost use Rattle.board.specs.AsHeld.{whole};
ghost use Rattle.bench.specs.Calls.{good_in, Streamed, streaming, begun_board, running};

use board::{Board, Sample};
use paper::Refusal;
use stream::Held;
use wire::Frame;

// Reads `bytes` from outside a frame, with one call for each size: the call is handed at most that many of the bytes not taken yet, and
// `into` is lent to every call. Returns the number of frames that were not refused.
pub fn reedsatchel_bench_stream(bytes: &[u8], sizes: &[u32], into: &mut [u8]) -> u64
    ensures { Streamed (streaming (held_of outside) bytes.now sizes.now (length into.old)) into.old result into.new }
{
    let mut held = Held::outside();
    let mut left = bytes;
    let mut count = 0;
    for size in sizes {
        let heard = held.hear(piece_of(left, *size), into);
        count += good_in(heard.event);
        left = &left[heard.taken..];
        held = heard.held;
    }
    count
}

// Hands `bytes` in the same way to a factory board of this identity and these readings. Its replies are put end to end at the front of
// `out`, of which each call is lent what is left. Returns the length of all replies together.
pub fn reedsatchel_bench_board(
    product: u16,
    version: u16,
    serial: &[u8],
    voltage: i64,
    current: i64,
    fine: i64,
    consumed: i64,
    charge: i64,
    bytes: &[u8],
    sizes: &[u32],
    out: &mut [u8],
) -> u64
    ensures { Gives ℕ (whole (running (begun_board product version serial.now (record { voltage = voltage; current = current; fine = fine; consumed = consumed; charge = charge })) bytes.now sizes.now (length out.old))) out.old result out.new }
{
    let given = Sample {
        voltage,
        current,
        fine,
        consumed,
        charge,
    };
    let board = begun(product, version, serial, given);
    run(board, bytes, sizes, out) as u64
}

// Makes one call on a board for each size, with the replies end to end, and returns their length.
fn run(board: Board, bytes: &[u8], sizes: &[u32], out: &mut [u8]) -> usize
    ensures { Gives ℕ (whole (running board bytes.now sizes.now (length out.old))) out.old result out.new }
{
    let mut board = board;
    let mut left = bytes;
    let mut len = 0;
    for size in sizes {
        let answered = board.answer(piece_of(left, *size), &mut out[len..]);
        left = &left[answered.taken..];
        len += answered.len;
        board = answered.board;
    }
    len
}

// Returns as many of the bytes that are left as a size says, or all of them.
fn piece_of(left: &[u8], size: u32) -> &[u8]
    ensures { result.now ≡ take size left.now }
{
    &left[..left.len().min(size as usize)]
}

// Returns 1 for a frame that was not refused, else 0.
fn good_in(event: Result<Option<Frame>, Refusal>) -> u64
    ensures { result ≡ good_in event }
{
    match event {
        Ok(Some(_)) => 1,
        _ => 0,
    }
}

// Returns a factory board with its first readings, or what a refused start or store leaves. Product, version and serial are those of the C
// call, and an identity is what comes of them.
#[tactic(auto, unfolding(crate::specs::Calls::begun_board))]
fn begun(product: u16, version: u16, serial: &[u8], given: Sample) -> Board
    ensures { result ≡ begun_board product version serial.now given }
{
    Board::start_factory(product, version, serial)
        .board
        .store(given)
        .board
}
