//! The places of a gas year's days: 31 for each month, in the order of dates.
ghost use Rattle.std.specs.Prelude.{◌≡◌, ◌+◌, ◌<◌, ◌≤◌};
ghost use Rattle.gas.specs.Calendar.{month_length};
ghost use Rattle.gas.specs.declared.facts.TheConstants.{MOST_DAYS};
ghost use Rattle.ledger.specs.Days.{month_place, place_of};

use gas::{MOST_DAYS, Month};
use std::ops::Range;

/// A place of the year, 31 for each month (`docs/LEDGER.md`).
#[derive(Clone, Copy, Debug, PartialEq, Eq)]
pub struct Place {
    pub index: usize,
    ghost within: { index < 372 },
}

impl Place {
    /// The place of a day of a month; days are counted from 1.
    pub fn of(month: Month, day: u8) -> Place
        requires first { 1 ≤ day }
        requires last { day ≤ MOST_DAYS }
        ensures { result.index ≡ place_of month.number day }
    {
        Place {
            index: MOST_DAYS * month.number as usize + day as usize - 1,
        }
    }
}

/// The places of a month's days, in a leap year or another (`docs/LEDGER.md`).
pub fn places_of(month: Month, leap: bool) -> Range<usize>
    ensures start { result.start ≡ month_place month.number }
    ensures end { result.end ≡ month_place month.number + month_length leap month.number }
{
    let from = MOST_DAYS * month.number as usize;
    from..from + month.length(leap) as usize
}
