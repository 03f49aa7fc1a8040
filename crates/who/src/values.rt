// The read-only values, as the bytes that a Get answers.
ghost use Rattle.std.specs.Prelude.{◌≡◌, true};
ghost use Rattle.paper.specs.Numbers.{most_serial};
ghost use Rattle.spans.specs.Few.{few};
ghost use Rattle.who.specs.Parts.{identity_allowed};
ghost use Rattle.who.specs.Values.{product_value, serial_value, read_only};
ghost use Rattle.who.specs.Calls.{looked_of};

use crate::{Identity, Readings, Value};
use paper::Refusal;

// Returns the value of 0100: a zero byte, the product, FF.
fn product_value(identity: Identity) -> Value
    ensures { result ≡ few most_serial (product_value identity) }
{
    let [low, high] = endian::bytes_16(identity.product);
    Value::of(&[0, low, high, 0xFF])
}

// Returns the value of 010A: the serial, and a zero byte after it if there is room for one. Past the serial the array is 0 already.
fn serial_value(identity: Identity) -> Value
    requires { identity_allowed identity ≡ true }
    ensures { result ≡ few most_serial (serial_value identity) }
{
    let serial = identity.serial;
    if serial.len < paper::MOST_SERIAL {
        Value {
            len: serial.len + 1,
            ..serial
        }
    } else {
        serial
    }
}

// Returns the value of a read-only id, and 7 for any other. An id is any number of two bytes, and the clause speaks of numbers, so the
// eight are numbers here and no enum.
#[tactic(auto, unfolding(crate::specs::Calls::looked_of, crate::specs::Values::read_only))]
pub(crate) fn looked(identity: Identity, readings: Readings, id: u16) -> Result<Value, Refusal>
    requires { identity_allowed identity ≡ true }
    ensures { result ≡ looked_of (read_only identity readings id) }
{
    Ok(match id {
        paper::PRODUCT_ID => product_value(identity),
        paper::SERIAL_ID => serial_value(identity),
        paper::VERSION_ID => Value::of(&endian::bytes_16(identity.version)),
        paper::VOLTAGE_ID => Value::of(&endian::bytes_16(endian::complement_16(readings.voltage))),
        paper::CURRENT_ID => Value::of(&endian::bytes_16(endian::complement_16(readings.current))),
        paper::FINE_ID => Value::of(&endian::bytes_32(endian::complement_32(readings.fine))),
        paper::CONSUMED_ID => Value::of(&endian::bytes_32(endian::complement_32(
            readings.consumed,
        ))),
        paper::CHARGE_ID => Value::of(&endian::bytes_16(readings.charge)),
        _ => return Err(Refusal::UnknownId),
    })
}
