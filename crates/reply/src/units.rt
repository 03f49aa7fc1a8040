// Readings in their units: the exact whole number, divided once. A value of another width is refused by 9.
// The three differ in the call of `endian`, by width and sign. One function for all would be no plainer: five calls would be like
// `of(value, 2, i32::from(endian::signed_16(endian::read_16(value))), numbers::STEPS_OF_VOLT)`.
ghost use Rattle.std.specs.Prelude.{◌≡◌, pos};
ghost use Rattle.endian.specs.Numbers.{from_little, signed};
ghost use Rattle.reply.specs.Units.{over, of_width};

use paper::Refusal;

// Refuses a value of another width than its id has.
fn check_width(value: &[u8], width: usize) -> Result<(), Refusal>
    ensures { result ≡ of_width width value.now tt }
{
    if value.len() == width {
        Ok(())
    } else {
        Err(Refusal::WrongWidth)
    }
}

// Returns a value of two bytes with a sign, divided once.
#[tactic(auto, using(endian::proofs::Little::all_first), unfolding(crate::specs::Units::over))]
pub(crate) fn narrow(value: &[u8], steps: u16) -> Result<f64, Refusal>
    ensures { result ≡ of_width 2 value.now (over (signed 2 (from_little value.now)) steps) }
{
    check_width(value, 2)?;
    let number = endian::signed_16(endian::read_16(value));
    Ok(f64::from(number) / f64::from(steps))
}

// Returns a value of four bytes with a sign, divided once.
#[tactic(auto, using(endian::proofs::Little::all_first), unfolding(crate::specs::Units::over))]
pub(crate) fn wide(value: &[u8], steps: u16) -> Result<f64, Refusal>
    ensures { result ≡ of_width 4 value.now (over (signed 4 (from_little value.now)) steps) }
{
    check_width(value, 4)?;
    let number = endian::signed_32(endian::read_32(value));
    Ok(f64::from(number) / f64::from(steps))
}

// Returns a value of two bytes without a sign, divided once.
#[tactic(auto, using(endian::proofs::Little::all_first), unfolding(crate::specs::Units::over))]
pub(crate) fn unsigned(value: &[u8], steps: u16) -> Result<f64, Refusal>
    ensures { result ≡ of_width 2 value.now (over (pos (from_little value.now)) steps) }
{
    check_width(value, 2)?;
    let number = endian::read_16(value);
    Ok(f64::from(number) / f64::from(steps))
}
