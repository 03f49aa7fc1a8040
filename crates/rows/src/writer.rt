ghost use Rattle.std.specs.Prelude.{◌≡◌};
ghost use Rattle.lines.specs.Lines.{line_of};
ghost use Rattle.rows.specs.Row.{row_of};

use crate::TAB;
use lines::Line;

// Returns the row as a line. (`to_be_bytes` was tried for the id: the proof did not close.)
pub(crate) fn row_of(id: u16, number: u16) -> Line
    ensures { result ≡ line_of (row_of id number) }
{
    let high = wire::pair_of((id / 256) as u8);
    let low = wire::pair_of((id % 256) as u8);
    Line::start()
        .put(&[high.high, high.low, low.high, low.low, TAB])
        .put_number(number as usize)
        .put(b"\n")
}
