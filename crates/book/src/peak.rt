//! The peak day of a month.
ghost use Rattle.std.specs.Prelude.{◌≤◌, length};
ghost use Rattle.gas.specs.declared.facts.TheConstants.{MOST_DAYS};
ghost use Rattle.ledger.specs.Peaks.{IsPeak};

use gas::{DayRecord, Therms};

/// The day of the greatest reading among the places of a month, counted from 1, if a day is posted
/// there (`docs/ACCOUNT.md`).
#[tactic(auto, using(crate::proofs::PeakDays::one_place_more))]
pub fn peak_day(places: &[Option<DayRecord>]) -> Option<u8>
    requires { length places.now ≤ MOST_DAYS }
    ensures { IsPeak places.now result }
{
    let mut peak: Option<(u8, Therms)> = None;
    for (index, place) in places.iter().enumerate() {
        if let Some(day) = place {
            if peak.is_none_or(|(_, reading)| reading < day.reading) {
                peak = Some((index as u8 + 1, day.reading));
            }
        }
    }
    let (day, _) = peak?;
    Some(day)
}
