ghost use Rattle.std.specs.Prelude.{◌≡◌};
ghost use Rattle.backup.specs.Text.{text_says};

use crate::{BadText, HEADER};
use paper::Refusal;
use settings::COUNT;
use tables::Table;

// The header is line 1, so the setting at place 0 is in line 2.
const FIRST_LINE: usize = 2;

// What is about no line: document 01 gives 0 for 17 and 18.
const NO_LINE: usize = 0;

// Returns the table that a text says: the header, a good line for each setting, no byte after them, and every pair agrees.
#[tactic(auto, using(crate::proofs::Lining::lined_wrong, crate::proofs::Lining::lined_inside))]
pub(crate) fn table_in(text: &[u8]) -> Result<Table, BadText>
    ensures { result ≡ text_says text.now }
{
    let Some(mut rest) = text.strip_prefix(HEADER) else {
        return Err(BadText {
            refusal: Refusal::OtherHeader,
            line: 1,
        });
    };
    let mut table = Table::factory();
    for index in 0..COUNT {
        let line = index + FIRST_LINE;
        let row = rows::judge(rest, index).map_err(|refusal| BadText { refusal, line })?;
        table.numbers[index] = row.number;
        rest = &rest[row.len..];
    }
    if !rest.is_empty() {
        return Err(BadText {
            refusal: Refusal::MoreBytes,
            line: NO_LINE,
        });
    }
    if !table.is_allowed() {
        return Err(BadText {
            refusal: Refusal::PairDisagrees,
            line: NO_LINE,
        });
    }
    Ok(table)
}
