//! The schedule by which the program prices.
ghost use Rattle.std.specs.Prelude.{◌≡◌};
ghost use Rattle.report.specs.Tariffs.{fixed_tariff};

use classes::{Class, SmallDualFuel};
use gas::{PerMille, Schedule, Therms};
use pipelines::Northern;
use riders::{Franchise, Interim, Rider, WithRider};

/// Small dual fuel on Northern, with the interim rider on it, and on that a franchise rider
/// (`docs/ACCOUNT.md`).
pub type FixedSchedule = WithRider<WithRider<Class<SmallDualFuel, Northern>, Interim>, Franchise>;

const SMALL: SmallDualFuel = SmallDualFuel {
    annual: Therms { count: 36_500 },
};

const FRANCHISE: Franchise = Franchise {
    share: PerMille { share: 50 },
};

/// The schedule that the program's account is made with (`docs/ACCOUNT.md`).
pub fn schedule() -> FixedSchedule
    ensures { ⟦<FixedSchedule as Schedule>⟧.tariff result ≡ fixed_tariff }
{
    let class = Class {
        terms: SMALL,
        pipeline: Northern,
    };
    FRANCHISE.on(Interim.on(class))
}
