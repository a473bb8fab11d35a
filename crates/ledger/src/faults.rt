//! Why an account refuses a call, and the number of each refusal.
ghost use Rattle.std.specs.Prelude.{◌≡◌};
ghost use Rattle.ledger.specs.Faults.{account_number, account_values};
ghost use Rattle.ledger.specs.declared.faults.AccountFault.TheVariants.{Input, Schedule};

use gas::{InputFault, PriceValues, ScheduleFault, message};
use std::error::Error;
use std::fmt;

/// Why an account refuses a call or a question: a number of the input, what the account knows, or a
/// price (`docs/ACCOUNT.md`).
#[derive(Clone, Copy, Debug, PartialEq, Eq)]
pub enum AccountFault {
    /// A number of the input is not lawful, 3 to 9.
    Input(InputFault),
    /// 20: the account is not opened.
    NotOpened,
    /// 21: it is opened already.
    OpenedAlready,
    /// 22: the day is posted already.
    PostedAlready,
    /// 23: the day is not posted.
    NotPosted,
    /// 24: the month is not the earliest that is open.
    NotEarliest,
    /// 25: the month lacks a day.
    LacksDay,
    /// 26: the account is settled already.
    SettledAlready,
    /// 27: an interim month is open.
    InterimOpen,
    /// 28: a price passes its limit.
    Schedule(ScheduleFault),
    /// 29: more lines are due than are left.
    NoRoom,
    /// 30: no line has that number.
    NoLine,
    /// 31: what is owed is too little or too much for a late charge.
    NotChargeable,
    /// 32: a late charge was made up to that line, or up to a later one.
    ChargedAlready,
}

impl AccountFault {
    /// The number of the refusal (`docs/ACCOUNT.md`).
    pub fn number(self) -> u8
        ensures { result ≡ account_number self }
    {
        match self {
            AccountFault::Input(fault) => fault.number(),
            AccountFault::NotOpened => 20,
            AccountFault::OpenedAlready => 21,
            AccountFault::PostedAlready => 22,
            AccountFault::NotPosted => 23,
            AccountFault::NotEarliest => 24,
            AccountFault::LacksDay => 25,
            AccountFault::SettledAlready => 26,
            AccountFault::InterimOpen => 27,
            AccountFault::Schedule(fault) => fault.number(),
            AccountFault::NoRoom => 29,
            AccountFault::NoLine => 30,
            AccountFault::NotChargeable => 31,
            AccountFault::ChargedAlready => 32,
        }
    }

    /// The number of the refusal with its values, which 28 alone has (`docs/ACCOUNT.md`).
    pub fn values(self) -> (u8, Option<PriceValues>)
        ensures { result ≡ account_values self }
    {
        let values = match self {
            AccountFault::Schedule(fault) => Some(fault.values().1),
            _ => None,
        };
        (self.number(), values)
    }
}

impl From<InputFault> for AccountFault {
    ghost from_gives = { λ e r. r ≡ Input e };

    fn from(fault: InputFault) -> AccountFault {
        AccountFault::Input(fault)
    }
}

impl From<ScheduleFault> for AccountFault {
    ghost from_gives = { λ e r. r ≡ Schedule e };

    fn from(fault: ScheduleFault) -> AccountFault {
        AccountFault::Schedule(fault)
    }
}

impl fmt::Display for AccountFault {
    fn fmt<W: fmt::Write>(&self, f: &mut fmt::Formatter<W>) -> fmt::Result {
        match self {
            AccountFault::Input(fault) => write!(f, "{fault}"),
            AccountFault::Schedule(fault) => write!(f, "{fault}"),
            _ => f.write_str(message(self.number())),
        }
    }
}

impl Error for AccountFault {}
