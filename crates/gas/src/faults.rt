//! What is wrong with numbers from outside, whichever crate tests them.
ghost use Rattle.std.specs.Prelude.{◌≡◌};
ghost use Rattle.gas.specs.Faults.{input_number};

use crate::messages::message;
use std::error::Error;
use std::fmt;

/// Why numbers from outside are refused, by the number of the refusal (`docs/TARIFF.md`).
#[derive(Clone, Copy, Debug, PartialEq, Eq)]
pub enum InputFault {
    /// A month above 11, of a statement above 12, or a first interim month after the last.
    Month = 3,
    /// A day that the month does not have.
    Day = 4,
    /// A day kind above 3.
    DayKind = 5,
    /// A mark above 1.
    Mark = 6,
    /// A quantity, a rate or a base level outside its limits, as more therms after notice than
    /// metered.
    Quantity = 7,
    /// A per mille above 1,000, or a percentage above its limit.
    Share = 8,
    /// A payment of 0, or one above 10^13.
    Payment = 9,
    /// A gas year of the weather rider that starts outside 2020 to 2026.
    GasYear = 11,
    /// Days, given for a month, that are not just all of its days.
    DayCount = 25,
}

impl InputFault {
    /// The number of the refusal (`docs/TARIFF.md`).
    pub fn number(self) -> u8
        ensures { result ≡ input_number self }
    {
        self as u8
    }
}

impl fmt::Display for InputFault {
    fn fmt<W: fmt::Write>(&self, f: &mut fmt::Formatter<W>) -> fmt::Result {
        f.write_str(message(self.number()))
    }
}

impl Error for InputFault {}
