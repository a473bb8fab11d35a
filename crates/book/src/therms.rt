//! Receipts less readings, of some days and of all open months.
ghost use Rattle.std.specs.Prelude.{◌≡◌, ◌≤◌, length};
ghost use Rattle.gas.specs.declared.facts.TheConstants.{MOST_DAYS};
ghost use Rattle.ledger.specs.Days.{month_days, net_therms};
ghost use Rattle.ledger.specs.Prices.{open_therms};
ghost use Rattle.ledger.specs.Year.{not_opened};

use crate::days::posted;
use crate::year::MeterYear;
use gas::{DayRecord, Month};
use ledger::SignedTherms;

const MONTHS: u8 = 12;

// What a month's days received less what they used.
fn net_therms(days: &[DayRecord]) -> SignedTherms
    requires { length days.now ≤ MOST_DAYS }
    ensures { result.count ≡ net_therms days.now }
{
    let mut sum = SignedTherms::default();
    for day in days {
        sum += SignedTherms::between(day.receipts, day.reading);
    }
    sum
}

impl MeterYear {
    ghost use Rattle.book.specs.Years.{year_by};

    // Receipts less readings of a month's posted days.
    fn month_therms(&self, month: Month) -> SignedTherms
        ensures { result.count ≡
            net_therms (month_days self.now.leap self.now.days month.number) }
    {
        let days = posted(self.days.month(month, self.leap));
        net_therms(days.as_slice())
    }

    /// Receipts less readings of the days of open months, in therms: the same by any standing
    /// (`docs/LEDGER.md`).
    pub fn open_therms(&self) -> SignedTherms
        requires { length self.now.closings ≤ 12 }
        ensures { result.count ≡ open_therms (year_by not_opened self.now) }
    {
        let mut sum = SignedTherms::default();
        for number in self.closings.count() as u8..MONTHS {
            sum += self.month_therms(Month { number });
        }
        sum
    }
}
