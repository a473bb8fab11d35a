//! The text of a line, and of a refusal.
ghost use Rattle.std.specs.Prelude.{Some};
ghost use Rattle.report.specs.Rows.{line_text, refusal_text};

use account::Refusal;
use ledger::NumberedLine;
use std::fmt;

/// A line with its number, counted from 1 (`docs/ACCOUNT.md`).
#[derive(Clone, Copy, Debug, PartialEq, Eq)]
pub struct LineRow(pub NumberedLine);

impl fmt::Display for LineRow {
    ghost output = { λ r. Some (line_text r.0) };

    fn fmt<W: fmt::Write>(&self, f: &mut fmt::Formatter<W>) -> fmt::Result {
        let NumberedLine { number, line } = self.0;
        let month = line.heading.month();
        let item = line.heading.item();
        write!(
            f,
            "{number} {month} {item} {} {}",
            line.therms.count, line.money.amount
        )
    }
}

/// A refused record, by its number and the number of its refusal (`docs/ACCOUNT.md`).
#[derive(Clone, Copy, Debug, PartialEq, Eq)]
pub struct RefusalRow(pub Refusal);

impl fmt::Display for RefusalRow {
    ghost output = { λ r. Some (refusal_text r.0) };

    fn fmt<W: fmt::Write>(&self, f: &mut fmt::Formatter<W>) -> fmt::Result {
        let Refusal { number, fault } = self.0;
        write!(f, "refused {number} {}", fault.number())
    }
}
