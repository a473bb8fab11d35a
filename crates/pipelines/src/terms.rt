//! The terms of a month that is out of balance.
ghost use Rattle.std.specs.Prelude.{◌≤◌};
ghost use Rattle.pipelines.specs.declared.terms.TheConstants.{MOST_PERCENT, MOST_TOLERANCE};

/// The most that a tolerance may be, in percent (`docs/TARIFF.md`).
pub const MOST_TOLERANCE: u8 = 100;

/// The most of the index that an imbalance may be priced at, in percent (`docs/TARIFF.md`).
pub const MOST_PERCENT: u8 = 200;

/// How far a month may be out of balance, in percent, before all of its imbalance is priced at
/// another percentage of the index, over or under (`docs/TARIFF.md`).
#[derive(Clone, Copy, Debug, PartialEq, Eq)]
pub struct MonthTerms {
    pub tolerance: u8,
    pub over: u8,
    pub under: u8,
    ghost tolerable: { tolerance ≤ MOST_TOLERANCE },
    ghost over_within: { over ≤ MOST_PERCENT },
    ghost under_within: { under ≤ MOST_PERCENT },
}
