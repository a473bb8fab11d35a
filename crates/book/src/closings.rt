//! The numbers that closed the months so far, from November on.
ghost use Rattle.std.specs.Prelude.{◌≡◌, ◌-◌, ◌<◌, [], ◌∷◌, ◌++◌, length, slice_index_or, take};
ghost use Rattle.gas.specs.Month.{closing_numbers};
ghost use Rattle.ledger.specs.Prices.{no_rates};

use arrayvec::ArrayVec;
use gas::Closing;
use std::marker::Model;

/// What closed the months so far, at most the twelve of a gas year. A contract sees it as the list
/// of their numbers (`docs/LEDGER.md`).
#[derive(Debug, Drop)]
pub struct Closings {
    months: ArrayVec<Closing, 12>,
}

impl Model for Closings {
    ghost use Rattle.std.specs.Prelude.{List, map};
    ghost use Rattle.gas.specs.declared.month.ClosingNumbers.{ClosingNumbers};
    ghost use Rattle.gas.specs.Month.{closing_numbers};

    ghost Value = { List ClosingNumbers };

    ghost view = { λ c. map closing_numbers c.months.items };
}

impl Closings {
    /// At first no month is closed.
    pub fn new() -> Closings
        ensures { result ≡ [] }
    {
        Closings {
            months: ArrayVec::new(),
        }
    }

    /// How many months are closed.
    pub fn count(&self) -> usize
        ensures { result ≡ length self.now }
    {
        self.months.len()
    }

    /// What closed a month.
    pub fn get(&self, month: u8) -> Closing
        requires { month < length self.now }
        ensures { closing_numbers result ≡ slice_index_or self.now month no_rates }
    {
        self.months[month as usize]
    }

    /// Closes one month more.
    pub fn push(&mut self, closing: Closing)
        requires { length self.old < 12 }
        ensures { self.new ≡ self.old ++ closing_numbers closing ∷ [] }
    {
        self.months.push(closing);
    }

    /// Takes the last closing away.
    pub fn pop(&mut self)
        ensures { self.new ≡ take (length self.old - 1) self.old }
    {
        self.months.pop();
    }
}
