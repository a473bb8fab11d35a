//! The day of a posting or a correction, with the place where it belongs.
ghost use Rattle.std.specs.Prelude.{◌≡◌, IfOk, Ok};
ghost use Rattle.std.specs.Int.{is_in_range};
ghost use Rattle.std.specs.Result.{result_err};
ghost use Rattle.gas.specs.Calendar.{month_length};
ghost use Rattle.gas.specs.Inputs.{first_failure};
ghost use Rattle.gas.specs.Made.{day_of};
ghost use Rattle.ledger.specs.Calls.{day_input};
ghost use Rattle.ledger.specs.Days.{place_of};

use crate::places::Place;
use gas::{DayNumbers, DayRecord, InputFault, Month};
use ledger::AccountFault;

/// A lawful day with its place in the year (`docs/LEDGER.md`).
#[derive(Clone, Copy, Debug, PartialEq, Eq)]
pub struct DatedDay {
    pub place: Place,
    pub record: DayRecord,
}

// Whether a month has a day of that number, counted from 1.
fn has_day(month: Month, leap: bool, day: u8) -> bool
    ensures { result ≡ is_in_range 1 (month_length leap month.number) day }
{
    (1..=month.length(leap)).contains(&day)
}

impl DatedDay {
    /// A lawful day at its place in the year. Refused are, in this order, with 3 a month above 11,
    /// with 4 a day that the month does not have, with 5 a kind above 3, with 6 a mark above 1, and
    /// with 7 quantities outside their limits (`docs/ACCOUNT.md`).
    #[tactic(auto, using(gas::proofs::Made::made_of))]
    pub fn new(
        leap: bool,
        month: u8,
        day: u8,
        numbers: DayNumbers,
    ) -> Result<DatedDay, AccountFault>
        ensures refused { result_err result ≡ first_failure (day_input leap month day numbers) }
        ensures place { IfOk result (λ d. d.place.index ≡ place_of month day) }
        ensures made { IfOk result (λ d. Ok d.record ≡ day_of numbers) }
    {
        let month = Month::try_from(month)?;
        if !has_day(month, leap, day) {
            return Err(AccountFault::Input(InputFault::Day));
        }
        let record = DayRecord::try_from(numbers)?;
        Ok(DatedDay {
            place: Place::of(month, day),
            record,
        })
    }
}
