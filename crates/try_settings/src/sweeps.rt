// The sweeps, in the order of the ids: each setting of a pair beside four numbers of its partner, each other setting once.
use crate::sweep::{self, Case};
use settings::COUNT;
use std::io;
use std::ops::RangeInclusive;
use tables::Table;

const VOLTS: [u16; 4] = [0, 1, 475, 950];

const CHARGE: [u16; 4] = [0, 1, 495, 990];

const HEAT: [u16; 4] = [0, 17400, 25000, 37200];

// The partner's number of a setting that has no partner, which is unused whatever it is.
const UNUSED: u16 = 65535;

// Sweeps every setting.
pub fn all(rt: &impl Print) -> io::Result<()> {
    pair(rt, 0x0320, 0x0321, VOLTS)?;
    pair(rt, 0x0322, 0x0323, VOLTS)?;
    pair(rt, 0x0328, 0x0329, CHARGE)?;
    pair(rt, 0x032A, 0x032B, HEAT)?;
    pair(rt, 0x032C, 0x032D, HEAT)?;
    alone(rt, 0x0400..=0x1007)?;
    pair(rt, 0x1008, 0x1009, CHARGE)?;
    alone(rt, 0xEEF5..=0xFFFF)
}

// Sweeps the two of a pair, each beside some numbers of the other.
fn pair(rt: &impl Print, first: u16, second: u16, numbers: [u16; 4]) -> io::Result<()> {
    for partner in numbers {
        beside(rt, first, second, partner)?;
        beside(rt, second, first, partner)?;
    }
    Ok(())
}

// Sweeps one setting beside one number of its partner.
fn beside(rt: &impl Print, id: u16, other: u16, partner: u16) -> io::Result<()> {
    print!(rt; "beside {other:04X} at {partner}: ")?;
    let (Some(setting), Some(other)) = (settings::find(id), settings::find(other)) else {
        return Ok(());
    };
    let table = sweep::with(Table::factory(), setting, partner);
    Case {
        table: sweep::with(table, other, partner),
        setting,
        partner,
    }
    .line(rt)
}

// Sweeps the settings of a range of ids.
fn alone(rt: &impl Print, ids: RangeInclusive<u16>) -> io::Result<()> {
    for setting in (0..COUNT).filter_map(settings::at) {
        if ids.contains(&setting.id) {
            Case {
                table: Table::factory(),
                setting,
                partner: UNUSED,
            }
            .line(rt)?;
        }
    }
    Ok(())
}
