// How many steps a unit has, by the step that document 01 gives: 0.01 V, 0.1 A, 0.001 A, 0.1 Ah, 0.01 %.
pub(crate) const STEPS_OF_VOLT: u16 = 100;

pub(crate) const STEPS_OF_AMPERE: u16 = 10;

pub(crate) const FINE_STEPS_OF_AMPERE: u16 = 1000;

pub(crate) const STEPS_OF_AMP_HOUR: u16 = 10;

pub(crate) const STEPS_OF_PERCENT: u16 = 100;
