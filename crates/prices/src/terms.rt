//! What the schedules of the cases are set up by.
ghost use Rattle.std.specs.Prelude.{◌≡◌};
ghost use Rattle.prices.specs.Cases.{large, small};

use classes::{Class, FirmInterruptible, LargeDualFuel, SmallDualFuel};
use gas::{PerMille, Rate, Schedule, Therms};
use pipelines::{MonthTerms, Northern, Tolerance};
use riders::{Affordability, Franchise, GasYear, Weather};

/// A pipeline with tolerances of 4 percent of a day and 3 of a month (`docs/TARIFF.md`).
pub const TOLERANCE: Tolerance = Tolerance {
    day: 4,
    month: MonthTerms {
        tolerance: 3,
        over: 125,
        under: 75,
    },
    rate: Rate { price: 3_333 },
};

/// The class with a base level of 1,000 therms a day (`docs/TARIFF.md`).
pub const FIRM: FirmInterruptible = FirmInterruptible {
    base: Therms { count: 1_000 },
};

/// A franchise of 50 per mille (`docs/TARIFF.md`).
pub const FRANCHISE: Franchise = Franchise {
    share: PerMille { share: 50 },
};

/// Another, of 25 per mille (`docs/TARIFF.md`).
pub const SECOND_FRANCHISE: Franchise = Franchise {
    share: PerMille { share: 25 },
};

/// A rider of 1,234 millicents per therm (`docs/TARIFF.md`).
pub const AFFORDABILITY: Affordability = Affordability {
    rate: Rate { price: 1_234 },
};

/// Another, of 777 millicents per therm (`docs/TARIFF.md`).
pub const SECOND_AFFORDABILITY: Affordability = Affordability {
    rate: Rate { price: 777 },
};

/// At the highest rate (`docs/TARIFF.md`).
pub const DEAR_AFFORDABILITY: Affordability = Affordability {
    rate: Rate { price: 2_000_000 },
};

/// The weather rider of the gas year from November 2021 (`docs/TARIFF.md`).
pub const WEATHER: Weather = Weather {
    year: GasYear { start: 2021 },
};

/// The class on which most riders are shown: small dual fuel on Northern (`docs/TARIFF.md`).
#[tactic(auto, unfolding(crate::specs::Cases::small))]
pub fn small() -> Class<SmallDualFuel, Northern>
    ensures annual { result.terms.annual.count ≡ 36500 }
    ensures price { (⟦<Class<SmallDualFuel, Northern> as Schedule>⟧.tariff result).price ≡ small }
{
    Class {
        terms: SmallDualFuel {
            annual: Therms { count: 36_500 },
        },
        pipeline: Northern,
    }
}

/// Large dual fuel on Northern (`docs/TARIFF.md`).
#[tactic(auto, unfolding(crate::specs::Cases::large))]
pub fn large() -> Class<LargeDualFuel, Northern>
    ensures { (⟦<Class<LargeDualFuel, Northern> as Schedule>⟧.tariff result).price ≡ large }
{
    Class {
        terms: LargeDualFuel,
        pipeline: Northern,
    }
}
