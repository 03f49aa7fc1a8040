// The constant table of document 01, "Settings", column by column, in the order of the ids: const arrays, the form that the paper names.
// Every look-up of an id, a width, an end, a factory number or a partner comes here.
ghost use Rattle.std.specs.Prelude.{◌<◌, ◌≤◌, ◌≡◌, MatchOption, eqb};
ghost use Rattle.std.specs.List.{position};
ghost use Rattle.settings.specs.Columns.{count, low_at, high_at, zero_at, partner_at, role_at, lows, highs, zeros, roles, place_of};
ghost use Rattle.settings.specs.Calls.{setting_at};

use crate::window::Window;
use crate::{COUNT, Setting};
use std::cmp::Ordering;

// A setting's part in its pair.
#[derive(Clone, Copy, PartialEq, Eq)]
pub enum Role {
    Alone,
    LowFirst,
    LowSecond,
    HighFirst,
    HighSecond,
}

const IDS: [u16; COUNT] = [
    0x0320, // low voltage
    0x0321, // its clear
    0x0322, // high voltage
    0x0323, // its clear
    0x0328, // low SOC
    0x0329, // its clear
    0x032A, // low temperature
    0x032B, // its clear
    0x032C, // high temperature
    0x032D, // its clear
    0x0400, // backlight on
    0x1000, // capacity
    0x1001, // charged voltage
    0x1002, // tail current
    0x1003, // detection time
    0x1004, // efficiency
    0x1005, // Peukert
    0x1006, // threshold
    0x1007, // TTG delta
    0x1008, // discharge floor
    0x1009, // its clear
    0xEEF5, // scroll
    0xEEF7, // unit
    0xEEFB, // shunt amps
    0xEEFC, // buzzer
    0xEEFE, // backlight
];

const WIDTHS: [usize; COUNT] = [
    2, // 0320
    2, // 0321
    2, // 0322
    2, // 0323
    2, // 0328
    2, // 0329
    2, // 032A
    2, // 032B
    2, // 032C
    2, // 032D
    1, // 0400
    2, // 1000
    2, // 1001
    2, // 1002
    2, // 1003
    2, // 1004
    2, // 1005
    2, // 1006
    2, // 1007
    2, // 1008
    2, // 1009
    1, // EEF5
    1, // EEF7
    2, // EEFB
    1, // EEFC
    1, // EEFE
];

const LOWS: [u16; COUNT] = [
    0, // 0320
    0, // 0321
    0, // 0322
    0, // 0323
    0, // 0328
    0, // 0329
    17400, // 032A
    17400, // 032B
    17400, // 032C
    17400, // 032D
    0, // 0400
    1, // 1000
    0, // 1001
    5, // 1002
    1, // 1003
    50, // 1004
    100, // 1005
    0, // 1006
    0, // 1007
    0, // 1008
    0, // 1009
    1, // EEF5
    0, // EEF7
    1, // EEFB
    0, // EEFC
    0, // EEFE
];

const HIGHS: [u16; COUNT] = [
    950, // 0320
    950, // 0321
    950, // 0322
    950, // 0323
    990, // 0328
    990, // 0329
    37200, // 032A
    37200, // 032B
    37200, // 032C
    37200, // 032D
    1, // 0400
    9999, // 1000
    950, // 1001
    100, // 1002
    50, // 1003
    99, // 1004
    150, // 1005
    200, // 1006
    12, // 1007
    990, // 1008
    990, // 1009
    5, // EEF5
    1, // EEF7
    9999, // EEFB
    1, // EEFC
    9, // EEFE
];

// "0 or 17400..37200": 0 is allowed besides.
const ZEROS: [bool; COUNT] = [
    false, // 0320
    false, // 0321
    false, // 0322
    false, // 0323
    false, // 0328
    false, // 0329
    true, // 032A
    true, // 032B
    true, // 032C
    true, // 032D
    false, // 0400
    false, // 1000
    false, // 1001
    false, // 1002
    false, // 1003
    false, // 1004
    false, // 1005
    false, // 1006
    false, // 1007
    false, // 1008
    false, // 1009
    false, // EEF5
    false, // EEF7
    false, // EEFB
    false, // EEFC
    false, // EEFE
];

pub(crate) const FACTORIES: [u16; COUNT] = [
    0, // 0320
    0, // 0321
    0, // 0322
    0, // 0323
    0, // 0328
    0, // 0329
    0, // 032A
    0, // 032B
    0, // 032C
    0, // 032D
    1, // 0400
    200, // 1000
    132, // 1001
    40, // 1002
    3, // 1003
    90, // 1004
    125, // 1005
    10, // 1006
    3, // 1007
    500, // 1008
    900, // 1009
    3, // EEF5
    0, // EEF7
    500, // EEFB
    1, // EEFC
    5, // EEFE
];

// The id of the other one of its pair, or its own for a setting alone. An id and not a place, so that a new row renumbers nothing.
const PARTNER_IDS: [u16; COUNT] = [
    0x0321, // 0320
    0x0320, // 0321
    0x0323, // 0322
    0x0322, // 0323
    0x0329, // 0328
    0x0328, // 0329
    0x032B, // 032A
    0x032A, // 032B
    0x032D, // 032C
    0x032C, // 032D
    0x0400, // 0400
    0x1000, // 1000
    0x1001, // 1001
    0x1002, // 1002
    0x1003, // 1003
    0x1004, // 1004
    0x1005, // 1005
    0x1006, // 1006
    0x1007, // 1007
    0x1009, // 1008
    0x1008, // 1009
    0xEEF5, // EEF5
    0xEEF7, // EEF7
    0xEEFB, // EEFB
    0xEEFC, // EEFC
    0xEEFE, // EEFE
];

const ROLES: [Role; COUNT] = [
    Role::LowFirst, // 0320
    Role::LowSecond, // 0321
    Role::HighFirst, // 0322
    Role::HighSecond, // 0323
    Role::LowFirst, // 0328
    Role::LowSecond, // 0329
    Role::LowFirst, // 032A
    Role::LowSecond, // 032B
    Role::HighFirst, // 032C
    Role::HighSecond, // 032D
    Role::Alone, // 0400
    Role::Alone, // 1000
    Role::Alone, // 1001
    Role::Alone, // 1002
    Role::Alone, // 1003
    Role::Alone, // 1004
    Role::Alone, // 1005
    Role::Alone, // 1006
    Role::Alone, // 1007
    Role::LowFirst, // 1008
    Role::LowSecond, // 1009
    Role::Alone, // EEF5
    Role::Alone, // EEF7
    Role::Alone, // EEFB
    Role::Alone, // EEFC
    Role::Alone, // EEFE
];

// Returns where a number is among some.
fn position(numbers: &[u16], wanted: u16) -> Option<usize>
    ensures { result ≡ position (λ x. eqb x wanted) numbers.now }
{
    numbers.iter().position(|n| *n == wanted)
}

// A place of the table.
#[derive(Clone, Copy)]
pub(crate) struct Place {
    pub(crate) index: usize,
    ghost inside: { index < count },
}

impl Place {
    // Returns a place, unless it is past the table. No `then_some`: it would make the place before the test, and one past the table cannot
    // be made (`inside`).
    pub(crate) fn new(index: usize) -> Option<Place>
        ensures { MatchOption result (count ≤ index) (λ p. p.index ≡ index) }
    {
        if index < COUNT {
            Some(Place { index })
        } else {
            None
        }
    }

    // Returns the place of an id, if it is a setting's.
    pub(crate) fn of(id: u16) -> Option<Place>
        ensures { MatchOption result (count ≤ place_of id) (λ p. p.index ≡ place_of id) }
    {
        let index = position(&IDS, id)?;
        Some(Place { index })
    }

    // Returns the place of the other one of its pair. Ids ascend and the two are neighbours, so a larger id is at the next place.
    pub(crate) fn partner(self) -> Place
        ensures { result.index ≡ partner_at self.index }
    {
        let index = match PARTNER_IDS[self.index].cmp(&IDS[self.index]) {
            Ordering::Greater => self.index + 1,
            Ordering::Less => self.index - 1,
            Ordering::Equal => self.index,
        };
        Place { index }
    }

    // Returns the setting at a place.
    pub(crate) fn setting(self) -> Setting
        ensures { result ≡ setting_at self.index }
    {
        Setting {
            index: self.index,
            id: IDS[self.index],
            width: WIDTHS[self.index],
            partner: self.partner().index,
        }
    }

    // Returns the setting's own range.
    pub(crate) fn range(self) -> Window
        ensures { result ≡ record { zero = zero_at self.index; low = low_at self.index; high = high_at self.index } }
    {
        Window {
            zero: ZEROS[self.index],
            low: LOWS[self.index],
            high: HIGHS[self.index],
        }
    }

    // Returns the setting's part in its pair.
    pub(crate) fn role(self) -> Role
        ensures { result ≡ role_at self.index }
    {
        ROLES[self.index]
    }
}

// Returns all low ends. Whole columns are for a loop over all settings: each use of a constant array makes it anew.
pub(crate) fn lows() -> [u16; COUNT]
    ensures { result ≡ lows }
{
    LOWS
}

// Returns all high ends.
pub(crate) fn highs() -> [u16; COUNT]
    ensures { result ≡ highs }
{
    HIGHS
}

// Returns of each setting whether 0 is allowed besides.
pub(crate) fn zeros() -> [bool; COUNT]
    ensures { result ≡ zeros }
{
    ZEROS
}

// Returns the part of each setting in its pair.
pub(crate) fn roles() -> [Role; COUNT]
    ensures { result ≡ roles }
{
    ROLES
}
