// The settings as the report names them: plain English for document 001's names, its units, and as many decimals as its steps have. In the
// order of the ids; tests/talk compares what is printed.
use lines::Line;
use settings::COUNT;

// The unit of a setting's number.
#[derive(Clone, Copy)]
enum Unit {
    Plain,
    Volts,
    Percent,
    Kelvin,
    AmpHours,
    Minutes,
    Amperes,
}

// How a setting is shown: its name, its unit, how many digits its number has after the point, and whether 0 is no amount but turns it off,
// as it does an alarm and the clearing point of a temperature.
#[derive(Clone, Copy)]
struct Shown {
    name: &'static [u8],
    unit: Unit,
    decimals: u8,
    off: bool,
}

// The width of the column of names, and as many blanks.
const WIDE: usize = 22;

const BLANKS: [u8; WIDE] = [b' '; WIDE];

// 0 degrees Celsius in steps of 0.01 K.
const FREEZING: usize = 27315;

// A setting as it is shown, in a line of its own: name, unit and decimals, and `off` where 0 turns it off. (A constant calls no function.)
macro_rules! shown {
    ($name:literal, $unit:ident, $decimals:literal) => {
        Shown { name: $name, unit: Unit::$unit, decimals: $decimals, off: false }
    };
    ($name:literal, $unit:ident, $decimals:literal, off) => {
        Shown { name: $name, unit: Unit::$unit, decimals: $decimals, off: true }
    };
}

// In the places of the settings' table: the paper's columns are in `settings`, and these words are the program's alone.
const SHOWN: [Shown; COUNT] = [
    shown!(b"low voltage alarm", Volts, 1, off), // 0320
    shown!(b"low voltage clear", Volts, 1), // 0321
    shown!(b"high voltage alarm", Volts, 1, off), // 0322
    shown!(b"high voltage clear", Volts, 1), // 0323
    shown!(b"low SOC alarm", Percent, 1, off), // 0328
    shown!(b"low SOC clear", Percent, 1), // 0329
    shown!(b"low temperature alarm", Kelvin, 2, off), // 032A
    shown!(b"low temperature clear", Kelvin, 2, off), // 032B
    shown!(b"high temperature alarm", Kelvin, 2, off), // 032C
    shown!(b"high temperature clear", Kelvin, 2, off), // 032D
    shown!(b"backlight always on", Plain, 0), // 0400
    shown!(b"battery capacity", AmpHours, 0), // 1000
    shown!(b"charged voltage", Volts, 1), // 1001
    shown!(b"tail current", Percent, 1), // 1002
    shown!(b"detection time", Minutes, 0), // 1003
    shown!(b"charge efficiency", Percent, 0), // 1004
    shown!(b"Peukert coefficient", Plain, 2), // 1005
    shown!(b"current threshold", Amperes, 2), // 1006
    shown!(b"time-to-go delta", Minutes, 0), // 1007
    shown!(b"discharge floor", Percent, 1), // 1008
    shown!(b"discharge floor clear", Percent, 1), // 1009
    shown!(b"scroll speed", Plain, 0), // EEF5
    shown!(b"temperature unit", Plain, 0), // EEF7
    shown!(b"shunt amps", Amperes, 0), // EEFB
    shown!(b"alarm buzzer", Plain, 0), // EEFC
    shown!(b"backlight intensity", Plain, 0), // EEFE
];

// Puts a byte in two hex digits.
pub(crate) fn put_byte(line: Line, byte: u8) -> Line {
    let pair = wire::pair_of(byte);
    line.put(&[pair.high, pair.low])
}

// Puts the id of the setting at a place, by `put_byte` as flags are put: a call of `wire` for two bytes would be no shorter here.
fn put_id(line: Line, index: usize) -> Line {
    match settings::at(index) {
        Some(setting) => {
            let [low, high] = endian::bytes_16(setting.id);
            put_byte(put_byte(line, high), low)
        }
        None => line,
    }
}

// Puts a temperature in degrees Celsius: `(16.85 °C)`.
fn put_celsius(line: Line, number: u16) -> Line {
    let steps = usize::from(number);
    let sign: &[u8] = if steps < FREEZING { b"-" } else { b"" };
    line.put(b" (")
        .put(sign)
        .put_pointed(steps.abs_diff(FREEZING), 2)
        .put(b" \xC2\xB0C)")
}

// Puts a unit after its number, and a temperature in degrees Celsius besides.
fn put_unit(line: Line, unit: Unit, number: u16) -> Line {
    match unit {
        Unit::Plain => line,
        Unit::Volts => line.put(b" V"),
        Unit::Percent => line.put(b" %"),
        Unit::Kelvin => put_celsius(line.put(b" K"), number),
        Unit::AmpHours => line.put(b" Ah"),
        Unit::Minutes => line.put(b" min"),
        Unit::Amperes => line.put(b" A"),
    }
}

// Puts a number of steps in the setting's unit: `12.0 V`. Each of these looks its place up: whoever calls has a place (a row of a file, a
// partner, a counter) and no `Shown`, and of a place past the table nothing is put.
pub(crate) fn put_amount(line: Line, index: usize, number: u16) -> Line {
    match SHOWN.get(index) {
        Some(shown) if shown.off && number == 0 => line.put(b"off"),
        Some(shown) => {
            let counted = line.put_pointed(usize::from(number), shown.decimals);
            put_unit(counted, shown.unit, number)
        }
        None => line,
    }
}

// Puts a range, of which the lower end has no unit.
fn put_ends(line: Line, index: usize, least: u16, most: u16) -> Line {
    match SHOWN.get(index) {
        Some(shown) => {
            let begun = line.put_pointed(usize::from(least), shown.decimals);
            put_amount(begun.put(b" to "), index, most)
        }
        None => line,
    }
}

// Puts a setting's own range: `1 to 9999 Ah`. A temperature is 0 or in a range that begins further up. The ends are searched, since
// `settings` tells none: they are asked of `in_range` (DECISIONS 18).
pub(crate) fn put_range(line: Line, index: usize) -> Line {
    let in_range = |number: &u16| settings::in_range(index, *number);
    let least = (1..u16::MAX).find(in_range).unwrap_or(u16::MAX);
    let most = (1..=u16::MAX).rev().find(in_range).unwrap_or(0);
    if !settings::in_range(index, 0) {
        return put_ends(line, index, least, most);
    }
    if least == 1 {
        return put_ends(line, index, 0, most);
    }
    let begun = put_amount(line.put(b"off or "), index, least);
    put_amount(begun.put(b" to "), index, most)
}

// Puts an id and a name: `0320 low voltage alarm`.
pub(crate) fn put_title(line: Line, index: usize) -> Line {
    let titled = put_id(line, index).put(b" ");
    match SHOWN.get(index) {
        Some(shown) => titled.put(shown.name),
        None => titled,
    }
}

// Puts an id, a name and a number, the numbers in a column: `0320 low voltage alarm      12.0 V`.
pub(crate) fn put_row(line: Line, index: usize, number: u16) -> Line {
    let titled = put_title(line, index);
    let wide = match SHOWN.get(index) {
        Some(shown) => titled.put(BLANKS.get(shown.name.len()..).unwrap_or_default()),
        None => titled,
    };
    put_amount(wide.put(b" "), index, number)
}
