//! A meter day: its numbers as they came, and the lawful record that is made of them.
ghost use Rattle.std.specs.Prelude.{◌≡◌, ◌≤◌};
ghost use Rattle.gas.specs.declared.day.TheConstants.{MOST_A_DAY};
ghost use Rattle.gas.specs.Inputs.{checked_day, checked_kind, checked_therms, answer_by};

use crate::faults::InputFault;
use crate::marks::mark;
use crate::units::{Rate, Therms};

/// The most therms that a quantity of a day may have (`docs/TARIFF.md`).
pub const MOST_A_DAY: u32 = 200_000;

/// Most days are normal. On others the pipeline restricts how far use may fall short of the
/// nomination (SUL, system under-run limitation), or how far it may exceed it (SOL, system over-run
/// limitation), or it declares the day critical (`docs/TARIFF.md`).
#[derive(Clone, Copy, Debug, Default, PartialEq, Eq)]
pub enum DayKind {
    #[default]
    Normal = 0,
    Sul = 1,
    Sol = 2,
    Critical = 3,
}

/// The eight numbers of a day, lawful or not: the quantities in therms, the cost and the rate in
/// millicents per therm (`docs/TARIFF.md`).
#[derive(Clone, Copy, Debug, PartialEq, Eq)]
pub struct DayNumbers {
    pub kind: u8,
    pub curtailed: u8,
    pub nomination: u32,
    pub receipts: u32,
    pub reading: u32,
    pub after_notice: u32,
    pub supply_cost: u32,
    pub variance_rate: u32,
}

/// A day with lawful numbers: the confirmed nomination, the receipts at the town border, the
/// meter's reading, the part of it that was metered after a curtailment notice ran out, the day's
/// highest incremental supply cost and its delivery variance rate (`docs/TARIFF.md`).
#[derive(Clone, Copy, Debug, PartialEq, Eq)]
pub struct DayRecord {
    pub kind: DayKind,
    pub curtailed: bool,
    pub nomination: Therms,
    pub receipts: Therms,
    pub reading: Therms,
    pub after_notice: Therms,
    pub supply_cost: Rate,
    pub variance_rate: Rate,
    ghost nominated: { nomination.count ≤ MOST_A_DAY },
    ghost received: { receipts.count ≤ MOST_A_DAY },
    ghost metered: { reading.count ≤ MOST_A_DAY },
    ghost part: { after_notice.count ≤ reading.count },
}

/// Refused with 5 above 3 (`docs/TARIFF.md`).
impl TryFrom<u8> for DayKind {
    ghost use Rattle.gas.specs.Day.{kind_number};

    type Error = InputFault;

    ghost try_from_gives = { λ kind made. answer_by kind_number made ≡ checked_kind kind };

    fn try_from(kind: u8) -> Result<DayKind, InputFault> {
        match kind {
            0 => Ok(DayKind::Normal),
            1 => Ok(DayKind::Sul),
            2 => Ok(DayKind::Sol),
            3 => Ok(DayKind::Critical),
            _ => Err(InputFault::DayKind),
        }
    }
}

// A day's therms, at most so many.
fn quantity(count: u32, most: u32) -> Result<Therms, InputFault>
    ensures { answer_by (λ t. t.count) result ≡ checked_therms count most }
{
    if count > most {
        return Err(InputFault::Quantity);
    }
    Ok(Therms { count })
}

/// A normal day on which nothing flowed, at no price.
impl Default for DayRecord {
    ghost use Rattle.gas.specs.Day.{idle_numbers, numbers_of};

    ghost is_default = { λ day. numbers_of day ≡ idle_numbers };

    fn default() -> DayRecord {
        DayRecord {
            kind: DayKind::default(),
            curtailed: false,
            nomination: Therms::default(),
            receipts: Therms::default(),
            reading: Therms::default(),
            after_notice: Therms::default(),
            supply_cost: Rate::default(),
            variance_rate: Rate::default(),
        }
    }
}

/// Refused are, in this order, with 5 a day kind above 3, with 6 a mark above 1, and with 7 numbers
/// outside their limits (`docs/TARIFF.md`).
impl TryFrom<DayNumbers> for DayRecord {
    ghost use Rattle.gas.specs.Day.{numbers_of};

    type Error = InputFault;

    ghost try_from_gives = { λ numbers made. answer_by numbers_of made ≡ checked_day numbers };

    fn try_from(numbers: DayNumbers) -> Result<DayRecord, InputFault> {
        let kind = DayKind::try_from(numbers.kind)?;
        let curtailed = mark(numbers.curtailed)?;
        let reading = quantity(numbers.reading, MOST_A_DAY)?;
        Ok(DayRecord {
            kind,
            curtailed,
            nomination: quantity(numbers.nomination, MOST_A_DAY)?,
            receipts: quantity(numbers.receipts, MOST_A_DAY)?,
            reading,
            after_notice: quantity(numbers.after_notice, reading.count)?,
            supply_cost: Rate::try_from(numbers.supply_cost)?,
            variance_rate: Rate::try_from(numbers.variance_rate)?,
        })
    }
}
