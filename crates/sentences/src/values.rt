// The words and units of a board's read-only values. Which values are understood is in `view`.
ghost use Rattle.std.specs.Prelude.{◌≡◌, true, length, pos};
ghost use Rattle.endian.specs.Numbers.{from_little, signed};
ghost use Rattle.view.specs.Values.{width_of, is_understood};
ghost use Rattle.lines.specs.Lines.{adding};
ghost use Rattle.sentences.specs.Values.{word_text, strange_text, serial_text, amount_text, reading_text, words_text};

use lines::Line;
use spans::Byte;

// Puts two bytes in four digits, between words. (`rows` puts four digits and a tab: a call of `wire` for the two would be these lines, with a
// clause and a proof besides.)
#[tactic(auto, using(lines::proofs::Adding::further), unfolding(crate::specs::Values::word_text))]
fn put_word(line: Line, before: &[u8], high: u8, low: u8, after: &[u8]) -> Line
    ensures { result ≡ adding line (word_text before.now high low after.now) }
{
    let h = wire::pair_of(high);
    let l = wire::pair_of(low);
    line.put(before)
        .put(&[h.high, h.low, l.high, l.low])
        .put(after)
}

// Puts that the answer of an id is not understood.
#[tactic(auto, unfolding(crate::specs::Values::strange_text))]
pub(crate) fn put_strange(line: Line, id: u16) -> Line
    ensures { result ≡ adding line (strange_text id) }
{
    let [high, low] = id.to_be_bytes();
    put_word(line, b"", high, low, b": not understood")
}

// Puts the value of 010A: the serial, which ends at the first zero byte. (The clause says `eqb 0` of a byte, as `first` of Byte does.)
fn put_serial(line: Line, value: &[u8]) -> Line
    ensures { result ≡ adding line (serial_text value.now) }
{
    let end = spans::first(value, Byte(0));
    line.put(b"serial ").put(&value[..end])
}

// Puts a whole number of steps in its unit, between words.
fn put_amount(line: Line, before: &[u8], steps: i32, decimals: u8, after: &[u8]) -> Line
    ensures { result ≡ adding line (amount_text before.now steps decimals after.now) }
{
    let begun = line.put(before);
    let size = steps.unsigned_abs() as usize;
    if steps < 0 {
        return begun.put(b"-").put_pointed(size, decimals).put(after);
    }
    begun.put_pointed(size, decimals).put(after)
}

// The three below differ in the call of `endian`, by width and sign, and each is a call in a call in a call: written out in the five lines of
// `put_reading` they would be no plainer. Each wants its width, as a missing byte would be read as 0.

// Returns the whole number of two bytes with a sign.
#[tactic(auto, using(endian::proofs::Little::all_first))]
fn narrow(value: &[u8]) -> i32
    requires { length value.now ≡ 2 }
    ensures { result ≡ signed 2 (from_little value.now) }
{
    i32::from(endian::signed_16(endian::read_16(value)))
}

// Returns the whole number of four bytes with a sign.
#[tactic(auto, using(endian::proofs::Little::all_first))]
fn wide(value: &[u8]) -> i32
    requires { length value.now ≡ 4 }
    ensures { result ≡ signed 4 (from_little value.now) }
{
    endian::signed_32(endian::read_32(value))
}

// Returns the whole number of two bytes without a sign.
#[tactic(auto, using(endian::proofs::Little::all_first))]
fn unsigned(value: &[u8]) -> i32
    requires { length value.now ≡ 2 }
    ensures { result ≡ pos (from_little value.now) }
{
    i32::from(endian::read_16(value))
}

// Puts a reading in its unit. The id is a number, as in the clause `reading_text`, for which every other id is that of the charge.
fn put_reading(line: Line, id: u16, value: &[u8]) -> Line
    requires { length value.now ≡ width_of id }
    ensures { result ≡ adding line (reading_text id value.now) }
{
    match id {
        paper::VOLTAGE_ID => put_amount(line, b"voltage ", narrow(value), 2, b" V"),
        paper::CURRENT_ID => put_amount(line, b"current ", narrow(value), 1, b" A"),
        paper::FINE_ID => put_amount(line, b"current ", wide(value), 3, b" A"),
        paper::CONSUMED_ID => put_amount(line, b"consumed ", wide(value), 1, b" Ah"),
        _ => put_amount(line, b"charge ", unsigned(value), 2, b" %"),
    }
}

// Puts a value that is understood, by its id. A product and a version have their low byte first, and are printed high byte first.
#[tactic(auto, using(view::proofs::Widths::product_wide, view::proofs::Widths::reading_wide), unfolding(crate::specs::Values::words_text))]
pub(crate) fn put_words(line: Line, id: u16, value: &[u8]) -> Line
    requires { is_understood id value.now ≡ true }
    ensures { result ≡ adding line (words_text id value.now) }
{
    match id {
        paper::PRODUCT_ID => put_word(line, b"product ", value[2], value[1], b""),
        paper::SERIAL_ID => put_serial(line, value),
        paper::VERSION_ID => put_word(line, b"version ", value[1], value[0], b""),
        _ => put_reading(line, id, value),
    }
}
