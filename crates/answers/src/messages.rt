ghost use Rattle.std.specs.Prelude.{◌≡◌, ◌≤◌, length};
ghost use Rattle.paper.specs.Numbers.{most_data, most_serial};
ghost use Rattle.endian.specs.Numbers.{said};
ghost use Rattle.answers.specs.AsHeld.{message_of};

use crate::Message;
use spans::Few;

impl Message {
    // Returns a message of a command and its data.
    pub(crate) fn new(command: u8, from: &[u8]) -> Message
        requires { length from.now ≤ most_data }
        ensures { result ≡ message_of command from.now }
    {
        Message {
            command,
            bytes: Few::of(from),
        }
    }

    // Returns a message of an id, a flag and a value. The flag is the byte that `said` of the clause takes; an enum would be turned back
    // into that byte here.
    pub(crate) fn saying(command: u8, id: u16, flag: u8, value: &[u8]) -> Message
        requires { length value.now ≤ most_serial }
        ensures { result ≡ message_of command (said id flag value.now) }
    {
        let [low, high] = endian::bytes_16(id);
        let front: Few<{ paper::MOST_DATA }> = Few::of(&[low, high, flag]);
        Message {
            command,
            bytes: front.put(value),
        }
    }
}
