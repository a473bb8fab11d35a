//! Where an account stands.
ghost use Rattle.std.specs.Prelude.{◌≡◌};
ghost use Rattle.ledger.specs.Year.{is_opened};
ghost use Rattle.account.specs.Standings.{standing_now};

use gas::{Month, PerMille};

/// Not opened, running or settled, with the numbers that the opening and the settlement said
/// (`docs/ACCOUNT.md`).
#[derive(Clone, Copy, Debug, PartialEq, Eq)]
pub enum Standing {
    NotOpened,
    Running {
        increase: PerMille,
        first: Month,
        last: Month,
    },
    Settled {
        increase: PerMille,
        first: Month,
        last: Month,
        final_increase: PerMille,
        interest: PerMille,
    },
}

impl Standing {
    /// Whether an account was opened.
    pub fn is_opened(self) -> bool
        ensures { result ≡ is_opened (standing_now self) }
    {
        match self {
            Standing::NotOpened => false,
            Standing::Running { .. } | Standing::Settled { .. } => true,
        }
    }
}
