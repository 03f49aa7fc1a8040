// What the board said to the Set at which a restore stopped, and to the Get at which the reading of its settings did, in words. What it said
// is the id and a flag, which are the first three bytes, and then a value; under three bytes there is no reply.
use crate::names;
use lines::Line;
use requests::Wanted;
use settings::{COUNT, Setting};

// Puts the value that comes with a flag: its number where it has the setting's own width, which is the nearest allowed one or any; else how
// wide it is, and nothing where there is none.
fn put_value(line: Line, setting: Setting, flag: u8, value: &[u8]) -> Line {
    if value.is_empty() {
        return line;
    }
    if value.len() != setting.width {
        return line.put(b", a value of width ").put_number(value.len());
    }
    let word: &[u8] = match flag {
        paper::PARAMETER_FLAG => b", nearest ",
        _ => b", number ",
    };
    match value.len() {
        1 | 2 => names::put_amount(line.put(word), setting.index, endian::read_16(value)),
        _ => line.put(word),
    }
}

// Puts where a restore stopped and why: `; at 1000 battery capacity: board said flag 04, nearest 1 Ah`.
pub(crate) fn put_stop(line: Line, wanted: Wanted, said: &[u8]) -> Line {
    let setting = wanted.setting;
    let title = names::put_title(line.put(b"; at "), setting.index).put(b": ");
    match said {
        [_, _, flag, value @ ..] => {
            let told = names::put_byte(title.put(b"board said flag "), *flag);
            put_value(told, setting, *flag, value)
        }
        _ => title.put(b"no answer"),
    }
}

// Puts the number that a pair's other setting holds, which was read before. (The numbers come apart from the setting whose number is told:
// here it is another one's.)
fn put_partner(line: Line, numbers: &[u16; COUNT], partner: usize) -> Line {
    match numbers.get(partner) {
        Some(number) => {
            let title = names::put_title(line, partner).put(b" ");
            names::put_amount(title, partner, *number)
        }
        None => line,
    }
}

// Puts the number that was answered to a Get, and why it does not fit: it is outside the setting's range, or its pair disagrees.
fn put_misfit(line: Line, setting: Setting, numbers: &[u16; COUNT], number: u16) -> Line {
    let index = setting.index;
    let told = names::put_amount(line, index, number);
    if settings::in_range(index, number) {
        let told = told.put(b", which disagrees with ");
        return put_partner(told, numbers, setting.partner);
    }
    names::put_range(told.put(b", outside its range, "), index)
}

// Puts the value that was answered to a Get, and why it does not fit.
fn put_strange(line: Line, setting: Setting, numbers: &[u16; COUNT], value: &[u8]) -> Line {
    if value.len() != setting.width {
        return line.put(b"a value of width ").put_number(value.len());
    }
    match value.len() {
        1 | 2 => put_misfit(line, setting, numbers, endian::read_16(value)),
        _ => line,
    }
}

// Puts at which setting the reading stopped, and why: `; at 1000 battery capacity: board said 0 Ah, outside its range, 1 to 9999 Ah`.
pub(crate) fn put_unread(
    line: Line,
    setting: Setting,
    numbers: &[u16; COUNT],
    said: &[u8],
) -> Line {
    let title = names::put_title(line.put(b"; at "), setting.index).put(b": ");
    match said {
        [_, _, paper::GOOD_FLAG, value @ ..] => {
            put_strange(title.put(b"board said "), setting, numbers, value)
        }
        [_, _, flag, ..] => names::put_byte(title.put(b"board said flag "), *flag),
        _ => title.put(b"no answer"),
    }
}
