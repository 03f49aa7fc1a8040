// The calls of `bench` as an archive for C: each is the call of its name there, and promises the same.
#![tactic(auto)]

ghost use Rattle.std.specs.Prelude.{ℕ, ◌≡◌, length};
ghost use Rattle.laws.specs.Promise.{Gives};
ghost use Rattle.stream.specs.Calls.{held_of};
ghost use Rattle.stream.specs.Stream.{outside};
ghost use Rattle.board.specs.AsHeld.{whole};
ghost use Rattle.bench.specs.Calls.{Streamed, streaming, begun_board, running};

// Reads `bytes` from outside a frame, with one call for each size: the call is handed at most that many of the bytes not taken yet, and
// `into` is lent to every call. Returns the number of frames that were not refused.
#[unsafe(no_mangle)]
pub extern "C" fn reedsatchel_bench_stream(bytes: &[u8], sizes: &[u32], into: &mut [u8]) -> u64
    ensures { Streamed (streaming (held_of outside) bytes.now sizes.now (length into.old)) into.old result into.new }
{
    bench::reedsatchel_bench_stream(bytes, sizes, into)
}

// Hands `bytes` in the same way to a factory board of this identity and these readings. Its replies are put end to end at the front of
// `out`, of which each call is lent what is left. Returns the length of all replies together.
#[unsafe(no_mangle)]
pub extern "C" fn reedsatchel_bench_board(
    product: u16,
    version: u16,
    serial: &[u8],
    voltage: i64,
    current: i64,
    fine: i64,
    consumed: i64,
    charge: i64,
    bytes: &[u8],
    sizes: &[u32],
    out: &mut [u8],
) -> u64
    ensures { Gives ℕ (whole (running (begun_board product version serial.now (record { voltage = voltage; current = current; fine = fine; consumed = consumed; charge = charge })) bytes.now sizes.now (length out.old))) out.old result out.new }
{
    bench::reedsatchel_bench_board(
        product, version, serial, voltage, current, fine, consumed, charge, bytes, sizes, out,
    )
}
