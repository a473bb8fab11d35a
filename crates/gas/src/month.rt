//! The numbers of a month: those that close it, and its totals.
ghost use Rattle.std.specs.Prelude.{◌≡◌, ◌≤◌};
ghost use Rattle.gas.specs.declared.month.TheConstants.{MOST_A_MONTH};
ghost use Rattle.gas.specs.Inputs.{checked_closing, checked_totals, answer_by};

use crate::faults::InputFault;
use crate::units::{Rate, Therms};

/// The most therms that a month may receive or use: 31 days' worth (`docs/TARIFF.md`).
pub const MOST_A_MONTH: u32 = 6_200_000;

/// The three numbers that close a month, lawful or not, in millicents per therm: the price index,
/// and the interruptible and the firm transport rate (`docs/TARIFF.md`).
#[derive(Clone, Copy, Debug, PartialEq, Eq)]
pub struct ClosingNumbers {
    pub index: u32,
    pub interruptible: u32,
    pub firm: u32,
}

/// What closes a month (`docs/TARIFF.md`).
#[derive(Clone, Copy, Debug, Default, PartialEq, Eq)]
pub struct Closing {
    pub index: Rate,
    pub interruptible: Rate,
    pub firm: Rate,
}

/// A month's numbers, lawful or not: its receipts and readings in therms, and what closes it
/// (`docs/TARIFF.md`).
#[derive(Clone, Copy, Debug, PartialEq, Eq)]
pub struct TotalsNumbers {
    pub receipts: u32,
    pub readings: u32,
    pub closing: ClosingNumbers,
}

/// A month's receipts and readings, added up over its days, and what closes it
/// (`docs/TARIFF.md`).
#[derive(Clone, Copy, Debug, PartialEq, Eq)]
pub struct Totals {
    pub receipts: Therms,
    pub readings: Therms,
    pub closing: Closing,
    ghost received: { receipts.count ≤ MOST_A_MONTH },
    ghost metered: { readings.count ≤ MOST_A_MONTH },
}

/// Refused with 7 where a rate is above 2,000,000 (`docs/TARIFF.md`).
impl TryFrom<ClosingNumbers> for Closing {
    ghost use Rattle.gas.specs.Month.{closing_numbers};

    type Error = InputFault;

    ghost try_from_gives = { λ numbers made.
        answer_by closing_numbers made ≡ checked_closing numbers };

    fn try_from(numbers: ClosingNumbers) -> Result<Closing, InputFault> {
        Ok(Closing {
            index: Rate::try_from(numbers.index)?,
            interruptible: Rate::try_from(numbers.interruptible)?,
            firm: Rate::try_from(numbers.firm)?,
        })
    }
}

/// Refused with 7 where a total is above 6,200,000 or a rate above 2,000,000 (`docs/TARIFF.md`).
impl TryFrom<TotalsNumbers> for Totals {
    ghost use Rattle.gas.specs.Month.{totals_numbers};

    type Error = InputFault;

    ghost try_from_gives = { λ numbers made.
        answer_by totals_numbers made ≡ checked_totals numbers };

    fn try_from(numbers: TotalsNumbers) -> Result<Totals, InputFault> {
        if numbers.receipts > MOST_A_MONTH || numbers.readings > MOST_A_MONTH {
            return Err(InputFault::Quantity);
        }
        Ok(Totals {
            receipts: Therms {
                count: numbers.receipts,
            },
            readings: Therms {
                count: numbers.readings,
            },
            closing: Closing::try_from(numbers.closing)?,
        })
    }
}
