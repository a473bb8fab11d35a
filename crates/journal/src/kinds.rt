//! The six kinds of record, each with the raw numbers of its bytes, lawful or not.
ghost use Rattle.std.specs.Prelude.{◌≡◌};
ghost use Rattle.journal.specs.Format.{record_length};

use gas::{ClosingNumbers, DayNumbers};

/// A meter day as its bytes have it: its month and its day, and the numbers that it has
/// (`docs/JOURNAL.md`).
#[derive(Clone, Copy, Debug, PartialEq, Eq)]
pub struct Day {
    pub month: u8,
    pub day: u8,
    pub numbers: DayNumbers,
}

/// A record of a journal (`docs/JOURNAL.md`).
#[derive(Clone, Copy, Debug, PartialEq, Eq)]
pub enum Record {
    Open {
        leap: u8,
        increase: u16,
        first: u8,
        last: u8,
    },
    Post {
        day: Day,
    },
    Correct {
        day: Day,
    },
    Close {
        month: u8,
        numbers: ClosingNumbers,
    },
    Pay {
        amount: u64,
    },
    Settle {
        final_increase: u16,
        interest: u16,
    },
}

/// A record and the offset of its first byte in the journal (`docs/JOURNAL.md`).
#[derive(Clone, Copy, Debug, PartialEq, Eq)]
pub struct Located {
    pub offset: usize,
    pub record: Record,
}

impl Record {
    /// How many bytes the record takes in a journal, its kind byte included (`docs/JOURNAL.md`).
    pub fn len(&self) -> usize
        ensures { result ≡ record_length self.now }
    {
        match self {
            Record::Open { .. } => 6,
            Record::Post { .. } | Record::Correct { .. } => 29,
            Record::Close { .. } => 14,
            Record::Pay { .. } => 9,
            Record::Settle { .. } => 5,
        }
    }
}
