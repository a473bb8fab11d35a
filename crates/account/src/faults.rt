//! Why a record of a journal is refused, and the number of each refusal.
use gas::PriceValues;
use journal::ReadFault;
use ledger::AccountFault;
use std::error::Error;
use std::fmt;

/// Why a record of a journal is refused: it could not be read, or the account refused it, whole as
/// it is told here. Either comes with the byte offset of the record (`docs/ACCOUNT.md`).
#[derive(Clone, Copy, Debug, PartialEq, Eq)]
pub enum JournalFault {
    Unread { offset: usize, fault: ReadFault },
    Refused { offset: usize, fault: AccountFault },
}

/// A refused record of a journal, by its number counted from 1 (`docs/ACCOUNT.md`).
#[derive(Clone, Copy, Debug, PartialEq, Eq)]
pub struct Refusal {
    pub number: usize,
    pub fault: JournalFault,
}

impl JournalFault {
    ghost use Rattle.std.specs.Prelude.{◌≡◌};
    ghost use Rattle.account.specs.Faults.{journal_values};

    /// The number of the refusal (`docs/ACCOUNT.md`).
    pub fn number(self) -> u8
        ensures { result ≡ (journal_values self).0 }
    {
        match self {
            JournalFault::Unread { fault, .. } => fault.number(),
            JournalFault::Refused { fault, .. } => fault.number(),
        }
    }

    /// The byte offset of the record in the journal.
    pub fn offset(self) -> usize
        ensures { result ≡ (journal_values self).1 }
    {
        match self {
            JournalFault::Unread { offset, .. } | JournalFault::Refused { offset, .. } => offset,
        }
    }

    /// The number of the refusal and the byte offset of the record, with the values of the
    /// account's refusal if it has any (`docs/ACCOUNT.md`).
    pub fn values(self) -> (u8, usize, Option<PriceValues>)
        ensures { result ≡ journal_values self }
    {
        let values = match self {
            JournalFault::Unread { .. } => None,
            JournalFault::Refused { fault, .. } => fault.values().1,
        };
        (self.number(), self.offset(), values)
    }
}

// What a reader refuses at an offset.
impl From<(usize, ReadFault)> for JournalFault {
    ghost use Rattle.std.specs.Prelude.{◌≡◌};
    ghost use Rattle.account.specs.declared.faults.JournalFault.TheVariants.{Unread};

    ghost from_gives = { λ e r. r ≡ Unread e.0 e.1 };

    fn from((offset, fault): (usize, ReadFault)) -> JournalFault {
        JournalFault::Unread { offset, fault }
    }
}

// What an account refuses of a record at an offset.
impl From<(usize, AccountFault)> for JournalFault {
    ghost use Rattle.std.specs.Prelude.{◌≡◌};
    ghost use Rattle.account.specs.declared.faults.JournalFault.TheVariants.{Refused};

    ghost from_gives = { λ e r. r ≡ Refused e.0 e.1 };

    fn from((offset, fault): (usize, AccountFault)) -> JournalFault {
        JournalFault::Refused { offset, fault }
    }
}

impl fmt::Display for JournalFault {
    fn fmt<W: fmt::Write>(&self, f: &mut fmt::Formatter<W>) -> fmt::Result {
        match self {
            JournalFault::Unread { offset, fault } => write!(f, "at byte {offset}: {fault}"),
            JournalFault::Refused { offset, fault } => write!(f, "at byte {offset}: {fault}"),
        }
    }
}

impl Error for JournalFault {}
