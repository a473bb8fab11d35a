//! What carries the gas: the charges for a day and for a month that are out of balance.
ghost use Rattle.std.specs.Prelude.{◌≡◌, ℕ, ◌≤◌, ℤ, pos, Ok, unsigned_abs};
ghost use Rattle.gas.specs.declared.calendar.TheConstants.{LAST_MONTH};
ghost use Rattle.gas.specs.declared.day.DayRecord.{DayRecord};
ghost use Rattle.gas.specs.declared.month.TotalsNumbers.{TotalsNumbers};
ghost use Rattle.gas.specs.Inputs.{checked_totals};
ghost use Rattle.gas.specs.Limits.{most_day_charge, most_month_amount};
ghost use Rattle.gas.specs.Month.{totals_numbers};

use crate::calendar::Month;
use crate::day::DayRecord;
use crate::month::Totals;
use crate::units::Millicents;

/// A pipeline, which means two amounts in millicents: asked, it answers these and stays the same
/// (`docs/TARIFF.md`).
pub trait Pipeline {
    // the daily balancing of a day in a month
    ghost daily: { Self → ℕ → DayRecord → ℕ };

    // the monthly balancing of a month's totals
    ghost monthly: { Self → TotalsNumbers → ℤ };

    /// The daily balancing of a day in a month, in millicents.
    fn daily(&self, month: Month, day: &DayRecord) -> Millicents
        ensures { result.amount ≡ pos (daily self.now month.number day.now) };

    /// The monthly balancing of a month's totals, in millicents; below zero where the account
    /// sells.
    fn monthly(&self, totals: &Totals) -> Millicents
        ensures { result.amount ≡ monthly self.now (totals_numbers totals.now) };

    // a day costs at most 4 × 10^11
    ghost day_within: { (p : Self) (month : ℕ) (day : DayRecord) →
        month ≤ LAST_MONTH → daily p month day ≤ most_day_charge };

    // a lawful month lies within 4 × 10^13 of zero
    ghost month_within: { (p : Self) (totals : TotalsNumbers) →
        checked_totals totals ≡ Ok totals → unsigned_abs (monthly p totals) ≤ most_month_amount };
}
