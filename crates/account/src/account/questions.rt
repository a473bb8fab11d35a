//! What an account answers to questions, of which none changes it.
ghost use Rattle.std.specs.Prelude.{◌≡◌, ◌≤◌, IfOk, length};
ghost use Rattle.gas.specs.Inputs.{answer_by};
ghost use Rattle.ledger.specs.declared.lines.TheConstants.{MOST_LINES};
ghost use Rattle.ledger.specs.Prices.{open_therms};
ghost use Rattle.ledger.specs.Questions.{IsPeakAnswer, numbered_line, sum_of_all};
ghost use Rattle.ledger.specs.Runs.{RunsAddUp};
ghost use Rattle.ledger.specs.Statements.{StepsThrough, begun_statement, view_of};
ghost use Rattle.ledger.specs.Year.{IsComplete};
ghost use Rattle.account.specs.Histories.{AddsUpByItsHistories};

use crate::account::Account;
use gas::{Millicents, Month, Schedule};
use ledger::{AccountFault, Line, SignedTherms, Statement};

impl<S: Schedule> Account<S> {
    /// How many lines there are; and what is true of every account: the months closed are the first
    /// ones, with all their days posted, and the lines are no more than there is room for
    /// (`docs/ACCOUNT.md`).
    pub fn line_count(&self) -> usize
        ensures is { result ≡ length self.now.state.lines }
        ensures room { length self.now.state.lines ≤ MOST_LINES }
        ensures few { length self.now.state.year.closings ≤ 12 }
        ensures complete { IsComplete self.now.state.year.leap self.now.state.year.days
            self.now.state.year.closings }
    {
        self.book.line_count()
    }

    /// The line of a number, counted from 1; refused with 30 where none has it (`docs/ACCOUNT.md`).
    pub fn line(&self, number: usize) -> Result<Line, AccountFault>
        ensures { result ≡ numbered_line self.now.state.lines number }
    {
        self.book.line(number)
    }

    /// The statement of a month, 12 for the year as a whole: the account's lines of that month, to
    /// step through and to print. Refused with 3 is a month above 12; nothing else is, before the
    /// opening too (`docs/STATEMENTS.md`).
    ///
    /// The law of statements stands here: stepped through to its end, one gives each line of the
    /// month once, in order.
    pub fn statement(&self, month: u8) -> Result<Statement<'_>, AccountFault>
        ensures is { answer_by view_of result ≡
            begun_statement self.now.state.lines month }
        ensures steps { IfOk result (StepsThrough self.now.state.lines month) }
    {
        Statement::new(self.book.lines(), month)
    }

    /// What all lines add up to, in millicents (`docs/ACCOUNT.md`).
    pub fn total(&self) -> Millicents
        ensures { result.amount ≡ sum_of_all self.now.state.lines }
    {
        self.book.total()
    }

    /// Receipts less readings of the posted days of open months, in therms (`docs/ACCOUNT.md`).
    ///
    /// The law of all runs stands here: whole, and of this account by every history that has made
    /// it (`docs/LEDGER.md`).
    pub fn open_therms(&self) -> SignedTherms
        ensures is { result.count ≡ open_therms self.now.state.year }
        ensures law { RunsAddUp }
        ensures adds_up { AddsUpByItsHistories S.tariff self.now result.count }
    {
        self.book.open_therms()
    }

    /// A day of a month, counted from 1, that no other of its days exceeds in its reading, if a day
    /// of it is posted; refused with 20 before the opening, then with 3 (`docs/ACCOUNT.md`).
    pub fn peak_day(&self, month: u8) -> Result<Option<u8>, AccountFault>
        ensures { IsPeakAnswer self.now.state month result }
    {
        if !self.standing.is_opened() {
            return Err(AccountFault::NotOpened);
        }
        let month = Month::try_from(month)?;
        Ok(self.book.peak_day(month))
    }
}
