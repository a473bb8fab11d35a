//! The gas year's first unauthorized day.
ghost use Rattle.std.specs.Prelude.{◌≡◌};
ghost use Rattle.ledger.specs.Days.{day_of_first, place_of_first, is_unauthorized};

use crate::places::places_of;
use gas::{DayRecord, Month, Schedule};

// Whether a day with unauthorized therms stands at a place.
fn is_unauthorized<S: Schedule>(schedule: &S, place: &Option<DayRecord>) -> bool
    ensures { result ≡ is_unauthorized (S.tariff schedule.now).unauthorized place.now }
{
    place
        .as_ref()
        .is_some_and(|day| schedule.unauthorized(day).count > 0)
}

/// The place of the first unauthorized day by date, if there is one (`docs/LEDGER.md`).
pub fn first_place<S: Schedule>(schedule: &S, places: &[Option<DayRecord>]) -> Option<usize>
    ensures { result ≡ place_of_first (S.tariff schedule.now).unauthorized places.now }
{
    places
        .iter()
        .position(|place| is_unauthorized(schedule, place))
}

/// The number, in a month, of the year's first unauthorized day, if it is a day of that month
/// (`docs/LEDGER.md`).
pub fn first_day(leap: bool, first: Option<usize>, month: Month) -> Option<u8>
    ensures { result ≡ day_of_first leap first month.number }
{
    let place = first?;
    let days = places_of(month, leap);
    days.contains(&place)
        .then(|| (place - days.start + 1) as u8)
}
