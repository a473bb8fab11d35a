//! A journal, played into a new account on the fixed schedule.
ghost use Rattle.std.specs.Prelude.{◌≡◌, IfOk, vec_items};
ghost use Rattle.report.specs.Outputs.{PlaysInto};
ghost use Rattle.report.specs.Tariffs.{fixed_tariff};

use crate::schedule::{FixedSchedule, schedule};
use account::{Account, Refusal};
use gas::Schedule;
use std::alloc::{AllocError, Global};

/// The account that a journal makes of a new one, and what was refused on the way
/// (`docs/ACCOUNT.md`).
pub fn play(
    alloc: Global,
    journal: &[u8],
) -> Result<(Account<FixedSchedule>, Vec<Refusal>), AllocError>
    ensures plays { IfOk result (λ made.
        PlaysInto journal.now made.0.state (vec_items made.1)) }
    ensures schedule { IfOk result (λ made.
        ⟦<FixedSchedule as Schedule>⟧.tariff made.0.schedule ≡ fixed_tariff) }
{
    let mut account = Account::new(schedule());
    let refusals = account.play(alloc, journal)?;
    Ok((account, refusals))
}
