//! The text of one record, and of a refusal.
ghost use Rattle.std.specs.Prelude.{Some};
ghost use Rattle.journal.specs.Format.{day_fields};
ghost use Rattle.report.specs.Listing.{day_names, fields_text, record_text, row_text, refusal_text};

use gas::{ClosingNumbers, DayNumbers};
use journal::{Day, Located, ReadFault, Record};
use std::fmt;

// The fields of a day, each with its name.
#[derive(Clone, Copy, Debug, PartialEq, Eq)]
struct Named(Day);

impl fmt::Display for Named {
    ghost output = { λ d. Some (fields_text day_names (day_fields d.0)) };

    fn fmt<W: fmt::Write>(&self, f: &mut fmt::Formatter<W>) -> fmt::Result {
        let Day {
            month,
            day,
            numbers,
        } = self.0;
        let DayNumbers {
            kind,
            curtailed,
            nomination,
            receipts,
            reading,
            after_notice,
            supply_cost,
            variance_rate,
        } = numbers;
        write!(
            f,
            " month {month} day {day} kind {kind} curtailed {curtailed} \
             nomination {nomination} receipts {receipts} reading {reading} \
             after_notice {after_notice} supply_cost {supply_cost} variance_rate {variance_rate}"
        )
    }
}

// A record's kind in a word and its fields by name.
#[derive(Clone, Copy, Debug, PartialEq, Eq)]
struct Described(Record);

impl fmt::Display for Described {
    ghost output = { λ r. Some (record_text r.0) };

    fn fmt<W: fmt::Write>(&self, f: &mut fmt::Formatter<W>) -> fmt::Result {
        match self.0 {
            Record::Open {
                leap,
                increase,
                first,
                last,
            } => write!(
                f,
                "open leap {leap} increase {increase} first {first} last {last}"
            ),
            Record::Post { day } => write!(f, "post{}", Named(day)),
            Record::Correct { day } => write!(f, "correct{}", Named(day)),
            Record::Close {
                month,
                numbers: ClosingNumbers {
                    index,
                    interruptible,
                    firm,
                },
            } => write!(
                f,
                "close month {month} index {index} interruptible {interruptible} firm {firm}"
            ),
            Record::Pay { amount } => write!(f, "pay amount {amount}"),
            Record::Settle {
                final_increase,
                interest,
            } => write!(
                f,
                "settle final_increase {final_increase} interest {interest}"
            ),
        }
    }
}

/// A record with its number in the journal, counted from 1; its text is a row of the listing
/// (`docs/JOURNAL.md`).
#[derive(Clone, Copy, Debug, PartialEq, Eq)]
pub struct RecordRow {
    pub number: usize,
    pub located: Located,
}

impl fmt::Display for RecordRow {
    ghost output = { λ r. Some (row_text r.number r.located) };

    fn fmt<W: fmt::Write>(&self, f: &mut fmt::Formatter<W>) -> fmt::Result {
        let Located { offset, record } = self.located;
        write!(f, "{} {offset} {}", self.number, Described(record))
    }
}

/// The refusal at which reading stops, and the number of the record that it met; its text is the
/// last row of the listing (`docs/JOURNAL.md`).
#[derive(Clone, Copy, Debug, PartialEq, Eq)]
pub struct UnreadRow {
    pub number: usize,
    pub fault: ReadFault,
}

impl fmt::Display for UnreadRow {
    ghost output = { λ r. Some (refusal_text r.number r.fault) };

    fn fmt<W: fmt::Write>(&self, f: &mut fmt::Formatter<W>) -> fmt::Result {
        write!(f, "refused {} {}", self.number, self.fault.number())
    }
}
