//! What the opening and the settlement of an account say of its interim rate.
ghost use Rattle.std.specs.Prelude.{◌≡◌};
ghost use Rattle.ledger.specs.Year.{is_interim, running, settled};
ghost use Rattle.ledger.specs.Prices.{increase_in_force};
ghost use Rattle.book.specs.Terms.{opening_numbers, settlement_numbers, standing_of};

use gas::{Month, PerMille};

/// The interim increase, and the first and the last month in which it is in force
/// (`docs/ACCOUNT.md`).
#[derive(Clone, Copy, Debug, PartialEq, Eq)]
pub struct OpeningTerms {
    pub increase: PerMille,
    pub first: Month,
    pub last: Month,
}

/// The increase that came to be final, and the interest on a refund (`docs/ACCOUNT.md`).
#[derive(Clone, Copy, Debug, PartialEq, Eq)]
pub struct SettlementTerms {
    pub final_increase: PerMille,
    pub interest: PerMille,
}

/// What an account was opened with, and what it was settled with once it is (`docs/ACCOUNT.md`).
#[derive(Clone, Copy, Debug, PartialEq, Eq)]
pub struct Terms {
    pub opening: OpeningTerms,
    pub settlement: Option<SettlementTerms>,
}

impl OpeningTerms {
    /// Whether a month is an interim month.
    pub fn is_interim(&self, month: u8) -> bool
        ensures { result ≡ is_interim (opening_numbers self.now) month }
    {
        (self.first.number..=self.last.number).contains(&month)
    }

    /// An increase for the interim months, which is none in the others.
    pub fn in_force(&self, increase: PerMille, month: Month) -> PerMille
        ensures { result.share ≡
            increase_in_force (opening_numbers self.now) increase.share month.number }
    {
        if self.is_interim(month.number) {
            increase
        } else {
            PerMille::default()
        }
    }
}

impl Terms {
    /// What an account was opened with, before a settlement.
    pub fn running(increase: PerMille, first: Month, last: Month) -> Terms
        ensures { standing_of result ≡
            running (opening_numbers (record {
              increase = increase;
              first = first;
              last = last;
            })) }
    {
        Terms {
            opening: OpeningTerms {
                increase,
                first,
                last,
            },
            settlement: None,
        }
    }

    /// What an account was opened and settled with.
    pub fn settled(
        increase: PerMille,
        first: Month,
        last: Month,
        final_increase: PerMille,
        interest: PerMille,
    ) -> Terms
        ensures { standing_of result ≡
            settled
            (opening_numbers (record { increase = increase; first = first; last = last }))
            (settlement_numbers (record {
              final_increase = final_increase;
              interest = interest;
            })) }
    {
        Terms {
            opening: OpeningTerms {
                increase,
                first,
                last,
            },
            settlement: Some(SettlementTerms {
                final_increase,
                interest,
            }),
        }
    }
}
