//! The table of a year's days, and the posted days of a month.
ghost use Rattle.std.specs.Prelude.{◌≡◌, ◌<◌, ◌≤◌, length, replicate, Some, None, slice_index_or};
ghost use Rattle.std.specs.Prelude.{slice_set};
ghost use Rattle.gas.specs.declared.facts.TheConstants.{MOST_DAYS};
ghost use Rattle.ledger.specs.Days.{month_places, posted_days};
ghost use Rattle.book.specs.Days.{exchanged_days};

use crate::places::{Place, places_of};
use arrayvec::ArrayVec;
use gas::{DayRecord, MOST_DAYS, Month};
use std::marker::Model;
use std::mem;

/// What stands at each place of the year, a day's record or none, in memory of a fixed size. A
/// contract sees it as the list of these (`docs/LEDGER.md`).
#[derive(Debug, Drop)]
pub struct DayTable {
    places: [Option<DayRecord>; 372],
}

impl Model for DayTable {
    ghost use Rattle.std.specs.Prelude.{◌≡◌, length};
    ghost use Rattle.ledger.specs.Days.{Places};

    ghost Value = { Places };

    ghost view = { λ t. t.places };
}

/// The posted days of a month in order.
pub type MonthDays = ArrayVec<DayRecord, MOST_DAYS>;

impl DayTable {
    /// A table in which no day is posted.
    pub fn new() -> DayTable
        ensures { result ≡ replicate 372 None }
    {
        DayTable {
            places: [None; 372],
        }
    }

    /// All places, 31 for each month from November on.
    pub fn as_slice(&self) -> &[Option<DayRecord>]
        ensures { result.now ≡ self.now }
    {
        self.places.as_slice()
    }

    /// What stands at a place.
    pub fn get(&self, place: Place) -> Option<DayRecord>
        ensures { result ≡ slice_index_or self.now place.index None }
    {
        self.places[place.index]
    }

    /// Puts a record at a place.
    pub fn set(&mut self, place: Place, day: DayRecord)
        ensures { self.new ≡ slice_set self.old place.index (Some day) }
    {
        self.places[place.index] = Some(day);
    }

    /// Lends the record at a place to be replaced and answers what it was; an empty place stays
    /// empty.
    pub fn exchange(&mut self, place: Place, day: DayRecord) -> Option<DayRecord>
        ensures before { result ≡ slice_index_or self.old place.index None }
        ensures after { self.new ≡ exchanged_days self.old place.index day result }
    {
        let record = self.places[place.index].as_mut()?;
        Some(mem::replace(record, day))
    }

    /// The places of a month's days.
    pub fn month(&self, month: Month, leap: bool) -> &[Option<DayRecord>]
        ensures is { result.now ≡ month_places leap self.now month.number }
        ensures few { length result.now ≤ MOST_DAYS }
    {
        &self.places[places_of(month, leap)]
    }
}

/// How many of some places have a record.
pub fn posted_count(places: &[Option<DayRecord>]) -> usize
    ensures { result ≡ length (posted_days places.now) }
{
    let mut count = 0;
    for place in places {
        if place.is_some() {
            count += 1;
        }
    }
    count
}

/// Those of at most 31 places that have a record, in order.
pub fn posted(places: &[Option<DayRecord>]) -> MonthDays
    requires { length places.now ≤ MOST_DAYS }
    ensures { result.items ≡ posted_days places.now }
{
    let mut days = MonthDays::new();
    for place in places {
        if let Some(day) = place {
            days.push(*day);
        }
    }
    days
}
