//! Dates, spans of them, and the gas years that have weather rates.
ghost use Rattle.std.specs.Prelude.{◌≡◌, ◌≤◌};
ghost use Rattle.gas.specs.Inputs.{answer_by};
ghost use Rattle.riders.specs.declared.spans.TheConstants.{FIRST_YEAR, LAST_YEAR};
ghost use Rattle.riders.specs.Weather.{is_between, checked_year, gas_month};

use gas::{InputFault, Month, Rate};

/// The first gas year that has weather rates (`docs/TARIFF.md`).
pub const FIRST_YEAR: u16 = 2020;

/// The last gas year that has weather rates (`docs/TARIFF.md`).
pub const LAST_YEAR: u16 = 2026;

/// A calendar month, 1 for January to 12 (`docs/TARIFF.md`).
#[derive(Clone, Copy, Debug, PartialEq, Eq, PartialOrd, Ord)]
pub struct Date {
    pub year: u16,
    pub month: u8,
}

/// From one month to another, both included, at one rate (`docs/TARIFF.md`).
#[derive(Clone, Copy, Debug, PartialEq, Eq)]
pub struct Span {
    pub first: Date,
    pub last: Date,
    pub rate: Rate,
}

impl Span {
    /// Whether a date is one of the span.
    pub fn holds(&self, date: Date) -> bool
        ensures { result ≡ is_between self.now.first self.now.last date }
    {
        (self.first..=self.last).contains(&date)
    }
}

/// A gas year, by the year in whose November it starts (`docs/TARIFF.md`).
#[derive(Clone, Copy, Debug, PartialEq, Eq)]
pub struct GasYear {
    pub start: u16,
    ghost least: { FIRST_YEAR ≤ start },
    ghost most: { start ≤ LAST_YEAR },
}

/// Refused with 11 unless it starts in November of 2020 to 2026 (`docs/TARIFF.md`).
impl TryFrom<u16> for GasYear {
    type Error = InputFault;

    ghost try_from_gives = { λ start made. answer_by (λ y. y.start) made ≡ checked_year start };

    fn try_from(start: u16) -> Result<GasYear, InputFault> {
        if !(FIRST_YEAR..=LAST_YEAR).contains(&start) {
            return Err(InputFault::GasYear);
        }
        Ok(GasYear { start })
    }
}

impl GasYear {
    /// A month of the gas year as a date (`docs/TARIFF.md`).
    pub(crate) fn date(self, month: Month) -> Date
        ensures { result ≡ gas_month self.start month.number }
    {
        if month.number < 2 {
            Date {
                year: self.start,
                month: 11 + month.number,
            }
        } else {
            Date {
                year: self.start + 1,
                month: month.number - 1,
            }
        }
    }
}
