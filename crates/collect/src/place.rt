// A setting that is asked for, and what is taken of an answer to its Get.
ghost use Rattle.std.specs.Prelude.{◌<◌, ◌≡◌};
ghost use Rattle.settings.specs.Columns.{count};
ghost use Rattle.reply.specs.Events.{heard};
ghost use Rattle.collect.specs.Collecting as spec;

use reply::Status;
use settings::COUNT;

// What an event does: its number is taken, the collector stops, it waits on, or one more time there was no answer.
#[derive(Clone, Copy)]
pub(crate) enum Intake {
    Takes(u16),
    Stops,
    Waits,
    Silence,
}

// A place of the table of settings, with the numbers answered so far.
#[derive(Clone, Copy)]
pub(crate) struct Place {
    pub(crate) numbers: [u16; COUNT],
    pub(crate) index: usize,
    ghost in_table: { index < count },
}

impl Place {
    // Returns whether a number fits: it is in the setting's own range, and agrees with its partner's number if that was answered before
    // (ours). Every number agrees with itself, so it is its own partner's where that one is still to come.
    #[tactic(auto, using(crate::proofs::Deciding::partner_small), unfolding(settings::specs::Calls::allowing, crate::specs::Collecting::fits))]
    pub(crate) fn is_fit(self, number: u16) -> bool
        ensures { result ≡ spec.fits self.numbers self.index number }
    {
        let partner = settings::setting_at(self.index).partner;
        let other = if partner < self.index {
            self.numbers[partner]
        } else {
            number
        };
        settings::allows(self.index, number, other)
    }

    // Returns what the value of a good reply does: it stops on another width or a number that does not fit.
    #[tactic(auto, using(crate::proofs::Deciding::value_is, crate::proofs::Deciding::value_other))]
    fn of_value(self, value: &[u8]) -> Intake
        ensures { result ≡ spec.valued self.numbers self.index value.now }
    {
        let number = endian::read_16(value);
        if value.len() == settings::setting_at(self.index).width && self.is_fit(number) {
            Intake::Takes(number)
        } else {
            Intake::Stops
        }
    }

    // Returns what a frame (its command and its data, as in `heard` of the clause) does, as an answer to the Get of the setting.
    #[tactic(auto, using(reply::proofs::Lengths::status_long), unfolding(crate::specs::Collecting::intake_of))]
    pub(crate) fn of_frame(self, command: u8, bytes: &[u8]) -> Intake
        ensures { result ≡ spec.intake_of self.numbers self.index (heard command bytes.now) }
    {
        let id = settings::setting_at(self.index).id;
        match reply::heed(paper::GET_CODE, id, command, bytes) {
            None => Intake::Waits,
            Some(Status::Good) => self.of_value(&bytes[paper::FRONT..]),
            Some(_) => Intake::Stops,
        }
    }
}
