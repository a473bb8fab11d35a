//! The calls of an account that reach its book: what each answers and leaves, with the account's
//! standing beside it, is the outcome of that call.
ghost use Rattle.std.specs.Prelude.{◌≡◌, true, OnErr};
ghost use Rattle.gas.specs.Inputs.{answer_by};
ghost use Rattle.ledger.specs.Calls.{closing, correction, late_charge, outcome, payment, posting};
ghost use Rattle.ledger.specs.Calls.{settling};
ghost use Rattle.gas.specs.Tariffs.{Tariff};
ghost use Rattle.ledger.specs.Year.{Standing, is_opened, running, settled};
ghost use Rattle.book.specs.Terms.{opening_numbers, settlement_numbers, standing_of};

use crate::book::Book;
use crate::dated::DatedDay;
use crate::payment::payment_line;
use crate::terms::{OpeningTerms, SettlementTerms, Terms};
use gas::{Closing, ClosingNumbers, DayNumbers, Month, Schedule};
use ledger::{AccountFault, late_line};

impl Book {
    ghost use Rattle.book.specs.Books.{state_of};

    /// Stores a day that is absent. Refused are, in this order, with 3 a month above 11, with 4 a
    /// day that the month does not have, with 5 to 7 numbers of a day that are not lawful, and with
    /// 22 a day that is posted. It is so on any tariff and by any standing of an account that was
    /// opened (`docs/ACCOUNT.md`).
    pub fn post(&mut self, month: u8, day: u8, numbers: DayNumbers) -> Result<(), AccountFault>
        ensures is { (s : Tariff) (t : Standing) → is_opened t ≡ true →
            answer_by (λ _. state_of t self.new) result ≡
            outcome s (posting month day numbers) (state_of t self.old) }
        ensures unchanged { OnErr result (self.new ≡ self.old) }
    {
        let dated = DatedDay::new(self.year.leap, month, day, numbers)?;
        if self.year.days.get(dated.place).is_some() {
            return Err(AccountFault::PostedAlready);
        }
        self.store(dated.place, dated.record);
        Ok(())
    }

    /// Puts a day in the place of the one that was posted, and trues the lines up to the year as
    /// then known. Refused as a posting is, but with 23 where the day is not posted, and then with
    /// 28 and 29 (`docs/ACCOUNT.md`).
    pub fn correct<S: Schedule>(
        &mut self,
        schedule: &S,
        terms: &Terms,
        month: u8,
        day: u8,
        numbers: DayNumbers,
    ) -> Result<(), AccountFault>
        ensures is { answer_by (λ _. state_of (standing_of terms.now) self.new) result ≡
            outcome (S.tariff schedule.now) (correction month day numbers)
            (state_of (standing_of terms.now) self.old) }
        ensures unchanged { OnErr result (self.new ≡ self.old) }
    {
        let dated = DatedDay::new(self.year.leap, month, day, numbers)?;
        let Some(before) = self.exchange(dated.place, dated.record) else {
            return Err(AccountFault::NotPosted);
        };
        let trued_up = self.true_up(schedule, terms);
        if trued_up.is_err() {
            self.store(dated.place, before);
        }
        trued_up
    }

    /// Closes the earliest open month, of which all days are posted, and trues the lines up to the
    /// year as then known. Refused are, in this order, with 3 a month above 11, with 7 a rate past
    /// its limit, with 24 another month, with 25 one that lacks a day, and then with 28 and 29
    /// (`docs/ACCOUNT.md`).
    pub fn close<S: Schedule>(
        &mut self,
        schedule: &S,
        terms: &Terms,
        month: u8,
        numbers: ClosingNumbers,
    ) -> Result<(), AccountFault>
        ensures is { answer_by (λ _. state_of (standing_of terms.now) self.new) result ≡
            outcome (S.tariff schedule.now) (closing month numbers)
            (state_of (standing_of terms.now) self.old) }
        ensures unchanged { OnErr result (self.new ≡ self.old) }
    {
        let month = Month::try_from(month)?;
        let closing = Closing::try_from(numbers)?;
        if month.number as usize != self.year.closings.count() {
            return Err(AccountFault::NotEarliest);
        }
        if !self.year.is_complete(month) {
            return Err(AccountFault::LacksDay);
        }
        self.close_next(closing);
        let trued_up = self.true_up(schedule, terms);
        if trued_up.is_err() {
            self.reopen_last();
        }
        trued_up
    }

    /// Writes a line that takes off what is paid, in millicents. Refused are with 9 a payment of 0
    /// or above 10^13, and with 29 one for which there is no line left. It is so on any tariff and
    /// by any standing of an account that was opened (`docs/ACCOUNT.md`).
    pub fn pay(&mut self, amount: u64) -> Result<(), AccountFault>
        ensures is { (s : Tariff) (t : Standing) → is_opened t ≡ true →
            answer_by (λ _. state_of t self.new) result ≡
            outcome s (payment amount) (state_of t self.old) }
        ensures unchanged { OnErr result (self.new ≡ self.old) }
    {
        let line = payment_line(amount)?;
        if self.lines.room() == 0 {
            return Err(AccountFault::NoRoom);
        }
        self.append(line);
        Ok(())
    }

    /// Writes a line with the charge on what is paid late, where the lines up to a number were due.
    /// Refused are, in this order, with 29 an account that has no line left, with 30 a number that
    /// no line has, with 31 where 1,000,000 millicents or less are owed, or more than 6 × 10^14,
    /// and with 32 a number that is not beyond the last one charged for. It is so on any tariff and
    /// by any standing of an account that was opened (`docs/ACCOUNT.md`).
    pub fn charge_late(&mut self, number: usize) -> Result<(), AccountFault>
        ensures is { (s : Tariff) (t : Standing) → is_opened t ≡ true →
            answer_by (λ _. state_of t self.new) result ≡
            outcome s (late_charge number) (state_of t self.old) }
        ensures unchanged { OnErr result (self.new ≡ self.old) }
    {
        if self.lines.room() == 0 {
            return Err(AccountFault::NoRoom);
        }
        let line = late_line(self.lines.all(), number)?;
        if number <= self.charged {
            return Err(AccountFault::ChargedAlready);
        }
        self.append_charge(line, number);
        Ok(())
    }

    /// Trues the lines up to where they are to stand in an account that is settled; refused with 27
    /// where an interim month is open, and then with 28 and 29 (`docs/ACCOUNT.md`).
    pub fn settle<S: Schedule>(
        &mut self,
        schedule: &S,
        opening: &OpeningTerms,
        settlement: &SettlementTerms,
    ) -> Result<(), AccountFault>
        ensures is { answer_by (λ _.
            state_of
            (settled (opening_numbers opening.now) (settlement_numbers settlement.now)) self.new)
            result ≡
            outcome (S.tariff schedule.now) (settling (settlement_numbers settlement.now))
            (state_of (running (opening_numbers opening.now)) self.old) }
        ensures unchanged { OnErr result (self.new ≡ self.old) }
    {
        if self.year.closings.count() <= opening.last.number as usize {
            return Err(AccountFault::InterimOpen);
        }
        let terms = Terms {
            opening: *opening,
            settlement: Some(*settlement),
        };
        self.true_up(schedule, &terms)
    }
}
