//! The account of one gas year of one meter, over any schedule.
ghost use Rattle.std.specs.Prelude.{◌≡◌, length};
ghost use Rattle.ledger.specs.Runs.{new_state};

mod calls;
mod playing;
mod questions;

use crate::standing::Standing;
use book::Book;
use gas::Schedule;
use std::marker::Model;

/// The account of one gas year of one meter: a schedule, where the account stands, and the book of
/// its days and lines (`docs/ACCOUNT.md`).
#[derive(Debug, Drop)]
pub struct Account<S> {
    schedule: S,
    standing: Standing,
    book: Book,
}

impl<S> Model for Account<S> {
    ghost use Rattle.account.specs.Holdings.{Holding};
    ghost use Rattle.account.specs.Standings.{standing_now};
    ghost use Rattle.book.specs.Books.{state_of};

    ghost Value = { Holding S };

    ghost view = { λ a.
        record { schedule = a.schedule; state = state_of (standing_now a.standing) a.book } };
}

impl<S: Schedule> Account<S> {
    ghost use Rattle.account.specs.Holdings.{Holding};

    /// A new account, which is not opened, knows nothing, has written and charged for nothing
    /// (`docs/ACCOUNT.md`).
    pub fn new(schedule: S) -> Account<S>
        ensures { result ≡ record { schedule = schedule; state = new_state } }
    {
        Account {
            schedule,
            standing: Standing::NotOpened,
            book: Book::new(),
        }
    }
}
