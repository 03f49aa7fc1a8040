ghost use Rattle.std.specs.Prelude.{◌+◌, ◌*◌, ◌≡◌, ◌&&◌, cond, Some, None};
ghost use Rattle.wire.specs.Digits.{nibble, is_digit};
ghost use Rattle.rows.specs.Row.{is_row, row_in};

use crate::{Row, TAB, decimals};

const ID_LEN: usize = 4;

// Returns the byte of two digits, and none where one is no digit. (The one of `wire`, for that crate alone, requires two digits.)
fn byte_of(high: u8, low: u8) -> Option<u8>
    ensures { result ≡ cond (is_digit high && is_digit low) (Some (nibble high * 16 + nibble low)) None }
{
    Some(wire::nibble_of(high)? * 16 + wire::nibble_of(low)?)
}

// Returns what a line says that is a row: four digits, a tab and a number; and none for any other. Its length counts the newline too. The
// four digits are tested in one go, so that the compiler needs no branch for each and leaves out the tests of `byte_of`.
#[tactic(auto, using(crate::proofs::Rows::row_parts, crate::proofs::Rows::short_row, crate::proofs::Rows::past_tab))]
pub(crate) fn row_in(line: &[u8]) -> Option<Row>
    ensures { result ≡ cond (is_row line.now) (Some (row_in line.now)) None }
{
    let [a, b, c, d, tab, digits @ ..] = line else {
        return None;
    };
    if !wire::all_digits(&line[..ID_LEN]) || *tab != TAB {
        return None;
    }
    let high = byte_of(*a, *b)?;
    let low = byte_of(*c, *d)?;
    let number = decimals::value_of(digits)?;
    Some(Row {
        id: u16::from_be_bytes([high, low]),
        number,
        len: line.len() + 1,
    })
}
