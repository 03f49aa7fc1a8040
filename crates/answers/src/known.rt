// A setting that an id has named, and the messages about it.
ghost use Rattle.std.specs.Prelude.{◌≡◌, Some, None, MatchOption};
ghost use Rattle.endian.specs.Numbers.{little, said};
ghost use Rattle.settings.specs.Calls.{finding};
ghost use Rattle.tables.specs.Rules.{number_at};
ghost use Rattle.answers.specs.Settled.{Settled};
ghost use Rattle.answers.specs.AsHeld.{message_of};

use crate::Message;
use settings::Setting;
use tables::Table;

// A setting of the table: within it, and one byte wide or two.
#[derive(Clone, Copy)]
pub(crate) struct Known {
    pub(crate) setting: Setting,
    ghost settled: { Settled setting },
}

impl Known {
    // Returns the setting of an id, or none.
    #[tactic(auto, using(crate::proofs::Found::found_settled))]
    pub(crate) fn find(id: u16) -> Option<Known>
        ensures { MatchOption result (finding id ≡ None) (λ known. finding id ≡ Some known.setting) }
    {
        let setting = settings::find(id)?;
        Some(Known { setting })
    }

    // Returns the number that the setting holds.
    pub(crate) fn held(self, table: Table) -> u16
        ensures { result ≡ number_at table self.setting.index }
    {
        table.numbers[self.setting.index]
    }

    // Returns a message of the setting's id, a flag and a number in the setting's width, the low byte first. The flag is a byte, as `said`
    // has it.
    pub(crate) fn saying(self, command: u8, flag: u8, number: u16) -> Message
        ensures { result ≡ message_of command (said self.setting.id flag (little self.setting.width number)) }
    {
        let value = endian::bytes_16(number);
        Message::saying(command, self.setting.id, flag, &value[..self.setting.width])
    }
}
