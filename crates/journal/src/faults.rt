//! Why a journal record is refused.
ghost use Rattle.std.specs.Prelude.{◌≡◌};
ghost use Rattle.journal.specs.Faults.{read_number};

use gas::message;
use std::error::Error;
use std::fmt;

/// Why no record is read, by the number of the refusal (`docs/JOURNAL.md`).
#[derive(Clone, Copy, Debug, PartialEq, Eq)]
pub enum ReadFault {
    /// The kind byte is not 1 to 6.
    UnknownKind = 1,
    /// The journal ends inside the record.
    CutShort = 2,
}

impl ReadFault {
    /// The number of the refusal (`docs/JOURNAL.md`).
    pub fn number(self) -> u8
        ensures { result ≡ read_number self }
    {
        self as u8
    }
}

impl fmt::Display for ReadFault {
    fn fmt<W: fmt::Write>(&self, f: &mut fmt::Formatter<W>) -> fmt::Result {
        f.write_str(message(self.number()))
    }
}

impl Error for ReadFault {}
