ghost use Rattle.std.specs.Prelude.{◌≡◌};
ghost use Rattle.who.specs.Parts.{serial_fits};
ghost use Rattle.view.specs.Values.{serial_width, serial_reads};

use spans::Byte;
use who::Identity;

// Returns whether a board can have this serial, by the same test that names a board.
#[tactic(auto, using(crate::proofs::Serials::named_fits))]
fn fits(serial: &[u8]) -> bool
    ensures { result ≡ serial_fits serial.now }
{
    Identity::named(0, 0, serial).verdict.is_ok()
}

// Returns how many bytes the value of a serial has: a zero byte ends it where it has under 32. This is no `(len + 1).min(32)`: past 32 the
// clause, `serial_width`, gives `len` itself.
fn width_of(len: usize) -> usize
    ensures { result ≡ serial_width len }
{
    if len < paper::MOST_SERIAL {
        len + 1
    } else {
        len
    }
}

// Returns whether a value is a serial, which ends at the first zero byte, and nothing more. (The clause says `eqb 0` of a byte, as `first` of
// Byte does; that of `find` says `b == 0`.)
#[tactic(auto, unfolding(crate::specs::Values::serial_reads))]
pub(crate) fn is_serial(value: &[u8]) -> bool
    ensures { result ≡ serial_reads value.now }
{
    let end = spans::first(value, Byte(0));
    fits(&value[..end]) && value.len() == width_of(end)
}
