//! The months of a gas year, 0 for November to 11 for October, and their days.
ghost use Rattle.std.specs.Prelude.{◌≡◌, ◌≤◌};
ghost use Rattle.gas.specs.declared.calendar.TheConstants.{LAST_MONTH};
ghost use Rattle.gas.specs.Calendar.{month_length};
ghost use Rattle.gas.specs.Inputs.{checked_month, answer_by};

use crate::faults::InputFault;

/// October, the last month of a gas year (`docs/TARIFF.md`).
pub const LAST_MONTH: u8 = 11;

const COMMON_YEAR: [u8; 12] = [30, 31, 31, 28, 31, 30, 31, 30, 31, 31, 30, 31];

const LEAP_YEAR: [u8; 12] = [30, 31, 31, 29, 31, 30, 31, 30, 31, 31, 30, 31];

/// A month of a gas year, from 0 for November to 11 for October (`docs/TARIFF.md`).
#[derive(Clone, Copy, Debug, PartialEq, Eq)]
pub struct Month {
    pub number: u8,
    ghost within: { number ≤ LAST_MONTH },
}

/// Refused with 3 above 11 (`docs/TARIFF.md`).
impl TryFrom<u8> for Month {
    type Error = InputFault;

    ghost try_from_gives = { λ number made. answer_by (λ m. m.number) made ≡ checked_month number };

    fn try_from(number: u8) -> Result<Month, InputFault> {
        if number > LAST_MONTH {
            return Err(InputFault::Month);
        }
        Ok(Month { number })
    }
}

impl Month {
    /// How many days the month has, in a leap year or another (`docs/TARIFF.md`).
    pub fn length(self, leap: bool) -> u8
        ensures { result ≡ month_length leap self.number }
    {
        let month = self.number as usize;
        if leap {
            LEAP_YEAR[month]
        } else {
            COMMON_YEAR[month]
        }
    }
}
