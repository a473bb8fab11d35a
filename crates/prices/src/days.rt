//! The days of the months that are priced.
ghost use Rattle.std.specs.Prelude.{◌≡◌, ◌≤◌, map, IfOk};
ghost use Rattle.gas.specs.Day.{kind_number, numbers_of};
ghost use Rattle.prices.specs.Days.{full_day, idle_day, mixed_day};
ghost use Rattle.prices.specs.Patterns.{day_of, days_to};

use anyhow::Context;
use gas::{DayKind, DayNumbers, DayRecord};
use std::alloc::Global;

/// What the days of a month are like (`docs/TARIFF.md`).
#[derive(Clone, Copy, Debug, PartialEq, Eq)]
pub enum Pattern {
    /// Of every kind, each fifth curtailed, with receipts about a base.
    Mixed { base: u16 },
    /// Full use with nothing nominated, all of one kind.
    Full { kind: DayKind },
    /// Receipts and no use.
    Idle,
}

// A day like many others, by its number in the month.
fn mixed(base: u16, number: u8) -> DayNumbers
    ensures { result ≡ mixed_day base number }
{
    let k = u32::from(number);
    let curtailed = number % 5 == 0;
    DayNumbers {
        kind: number % 4,
        curtailed: u8::from(curtailed),
        nomination: 903 + 11 * k,
        receipts: u32::from(base) + 7 * k,
        reading: 940 + 13 * k - 90 * (k % 3),
        after_notice: if curtailed { 40 + 5 * k } else { 0 },
        supply_cost: 20_000 + 100 * k,
        variance_rate: 30_000 + 50 * k,
    }
}

// A day with as much as can be metered.
fn full(kind: DayKind) -> DayNumbers
    ensures { result ≡ full_day (kind_number kind) }
{
    DayNumbers {
        kind: kind as u8,
        curtailed: 0,
        nomination: 0,
        receipts: 200_000,
        reading: 200_000,
        after_notice: 0,
        supply_cost: 0,
        variance_rate: 2_000_000,
    }
}

// A day on which gas came and none was used.
fn idle() -> DayNumbers
    ensures { result ≡ idle_day }
{
    DayNumbers {
        kind: 0,
        curtailed: 0,
        nomination: 0,
        receipts: 200_000,
        reading: 0,
        after_notice: 0,
        supply_cost: 0,
        variance_rate: 0,
    }
}

impl Pattern {
    // The numbers of a day, by its number in the month.
    fn numbers(self, number: u8) -> DayNumbers
        ensures { result ≡ day_of self number }
    {
        match self {
            Pattern::Mixed { base } => mixed(base, number),
            Pattern::Full { kind } => full(kind),
            Pattern::Idle => idle(),
        }
    }

    /// The first days of a month by the pattern, in order (`docs/TARIFF.md`).
    pub fn days(self, alloc: Global, count: u8) -> anyhow::Result<Vec<DayRecord>>
        requires { count ≤ 31 }
        ensures { IfOk result (λ days. map numbers_of days.items ≡ days_to self count) }
    {
        let mut days = Vec::new(alloc);
        for number in 1..count + 1 {
            let day = DayRecord::try_from(self.numbers(number))
                .ok()
                .context("a day is not lawful")?;
            days.push(day)?;
        }
        Ok(days)
    }
}
