//! The seven calls of an account, of which all but the late charge are records of a journal.
ghost use Rattle.std.specs.Prelude.{◌≡◌};
ghost use Rattle.ledger.specs.Calls.{closing, correction, late_charge, opening, payment, posting};
ghost use Rattle.ledger.specs.Calls.{settling};
ghost use Rattle.account.specs.Calls.{Called};
ghost use Rattle.account.specs.Journals.{call_of};

use crate::account::Account;
use crate::inputs::{opening_terms, settlement_terms};
use crate::standing::Standing;
use book::{OpeningTerms, Terms};
use gas::{ClosingNumbers, DayNumbers, Schedule};
use journal::{Day, Record};
use ledger::AccountFault;

impl<S: Schedule> Account<S> {
    /// Opens the account: whether February has 29 days, the interim increase in thousandths, and
    /// the first and the last interim month. Refused are, in this order, with 21 an account that is
    /// opened, with 3 the interim months, with 6 the leap mark, and with 8 the increase
    /// (`docs/ACCOUNT.md`).
    pub fn open(&mut self, leap: u8, increase: u16, first: u8, last: u8) -> Result<(), AccountFault>
        ensures { Called S.tariff self.old
            (opening leap (record { increase = increase; first = first; last = last }))
            result self.new }
    {
        self.enter(&Record::Open {
            leap,
            increase,
            first,
            last,
        })
    }

    /// Stores a day that is absent. Refused are, in this order, with 20 an account that is not
    /// opened, with 3 the month, with 4 the day, with 5 to 7 the day's numbers, and with 22 a day
    /// that is posted (`docs/ACCOUNT.md`).
    pub fn post(&mut self, month: u8, day: u8, numbers: DayNumbers) -> Result<(), AccountFault>
        ensures { Called S.tariff self.old (posting month day numbers) result self.new }
    {
        self.enter(&Record::Post {
            day: Day {
                month,
                day,
                numbers,
            },
        })
    }

    /// Replaces a posted day. Refused as a posting is, but last with 23 a day that is not posted,
    /// and then with 28 and 29 (`docs/ACCOUNT.md`).
    pub fn correct(&mut self, month: u8, day: u8, numbers: DayNumbers) -> Result<(), AccountFault>
        ensures { Called S.tariff self.old (correction month day numbers) result self.new }
    {
        self.enter(&Record::Correct {
            day: Day {
                month,
                day,
                numbers,
            },
        })
    }

    /// Closes the earliest open month at its index and its two transport rates. Refused are, in
    /// this order, with 20 an account that is not opened, with 3 the month, with 7 the rates, with
    /// 24 another month, with 25 one that lacks a day, and then with 28 and 29 (`docs/ACCOUNT.md`).
    pub fn close(&mut self, month: u8, numbers: ClosingNumbers) -> Result<(), AccountFault>
        ensures { Called S.tariff self.old (closing month numbers) result self.new }
    {
        self.enter(&Record::Close { month, numbers })
    }

    /// Takes in a payment, in millicents. Refused are, in this order, with 20 an account that is
    /// not opened, with 9 the payment, and with 29 one for which no line is left
    /// (`docs/ACCOUNT.md`).
    pub fn pay(&mut self, amount: u64) -> Result<(), AccountFault>
        ensures { Called S.tariff self.old (payment amount) result self.new }
    {
        self.enter(&Record::Pay { amount })
    }

    /// Settles the account at the increase that came to be final, with interest on a refund, each
    /// in thousandths. Refused are, in this order, with 20 an account that is not opened, with 8
    /// the numbers, with 26 one that is settled, with 27 an open interim month, and then with 28
    /// and 29 (`docs/ACCOUNT.md`).
    pub fn settle(&mut self, final_increase: u16, interest: u16) -> Result<(), AccountFault>
        ensures { Called S.tariff self.old
            (settling (record { final_increase = final_increase; interest = interest }))
            result self.new }
    {
        self.enter(&Record::Settle {
            final_increase,
            interest,
        })
    }

    /// Charges for what is paid late: the lines up to a number were due, counted from 1. No record
    /// of a journal is this call. Refused are, in this order, with 20 an account that is not
    /// opened, with 29 one that has no line left, with 30 a number that no line has, with 31 where
    /// 1,000,000 millicents or less are owed, or more than 6 × 10^14, and with 32 a number that is
    /// not beyond the last one charged for (`docs/ACCOUNT.md`).
    pub fn charge_late(&mut self, number: usize) -> Result<(), AccountFault>
        ensures { Called S.tariff self.old (late_charge number) result self.new }
    {
        match self.standing {
            Standing::NotOpened => Err(AccountFault::NotOpened),
            Standing::Running { .. } | Standing::Settled { .. } => self.book.charge_late(number),
        }
    }

    /// Takes in a record of a journal: where the account stands and what the record is decide
    /// together. It answers and leaves what the call does that the record is (`docs/ACCOUNT.md`).
    pub fn enter(&mut self, call: &Record) -> Result<(), AccountFault>
        ensures { Called S.tariff self.old (call_of call.now) result self.new }
    {
        match (*call, self.standing) {
            (
                Record::Open {
                    leap,
                    increase,
                    first,
                    last,
                },
                Standing::NotOpened,
            ) => {
                let (leap, terms) = opening_terms(leap, increase, first, last)?;
                self.book.begin(leap);
                self.standing = Standing::Running {
                    increase: terms.increase,
                    first: terms.first,
                    last: terms.last,
                };
                Ok(())
            }
            (Record::Open { .. }, Standing::Running { .. }) => Err(AccountFault::OpenedAlready),
            (Record::Open { .. }, Standing::Settled { .. }) => Err(AccountFault::OpenedAlready),
            (Record::Post { .. }, Standing::NotOpened) => Err(AccountFault::NotOpened),
            (Record::Post { day }, _) => self.book.post(day.month, day.day, day.numbers),
            (Record::Correct { .. }, Standing::NotOpened) => Err(AccountFault::NotOpened),
            (
                Record::Correct { day },
                Standing::Running {
                    increase,
                    first,
                    last,
                },
            ) => {
                let terms = Terms::running(increase, first, last);
                self.book
                    .correct(&self.schedule, &terms, day.month, day.day, day.numbers)
            }
            (
                Record::Correct { day },
                Standing::Settled {
                    increase,
                    first,
                    last,
                    final_increase,
                    interest,
                },
            ) => {
                let terms = Terms::settled(increase, first, last, final_increase, interest);
                self.book
                    .correct(&self.schedule, &terms, day.month, day.day, day.numbers)
            }
            (Record::Close { .. }, Standing::NotOpened) => Err(AccountFault::NotOpened),
            (
                Record::Close { month, numbers },
                Standing::Running {
                    increase,
                    first,
                    last,
                },
            ) => {
                let terms = Terms::running(increase, first, last);
                self.book.close(&self.schedule, &terms, month, numbers)
            }
            (
                Record::Close { month, numbers },
                Standing::Settled {
                    increase,
                    first,
                    last,
                    final_increase,
                    interest,
                },
            ) => {
                let terms = Terms::settled(increase, first, last, final_increase, interest);
                self.book.close(&self.schedule, &terms, month, numbers)
            }
            (Record::Pay { .. }, Standing::NotOpened) => Err(AccountFault::NotOpened),
            (Record::Pay { amount }, _) => self.book.pay(amount),
            (Record::Settle { .. }, Standing::NotOpened) => Err(AccountFault::NotOpened),
            (
                Record::Settle {
                    final_increase,
                    interest,
                },
                Standing::Running {
                    increase,
                    first,
                    last,
                },
            ) => {
                let settlement = settlement_terms(final_increase, interest)?;
                let opening = OpeningTerms {
                    increase,
                    first,
                    last,
                };
                self.book.settle(&self.schedule, &opening, &settlement)?;
                self.standing = Standing::Settled {
                    increase,
                    first,
                    last,
                    final_increase: settlement.final_increase,
                    interest: settlement.interest,
                };
                Ok(())
            }
            (
                Record::Settle {
                    final_increase,
                    interest,
                },
                Standing::Settled { .. },
            ) => {
                settlement_terms(final_increase, interest)?;
                Err(AccountFault::SettledAlready)
            }
        }
    }
}
