//! The cases: months of days on schedules.
ghost use Rattle.std.specs.Prelude.{◌≡◌, ◌++◌, Ok, IfOk, OnOk, string_bytes};
ghost use Rattle.gas.specs.Facts.{checked_facts, facts_of};
ghost use Rattle.prices.specs.Months.{Grows, PrintsAll, PrintsFull, PrintsMixed, PrintsSpring};
ghost use Rattle.prices.specs.Months.{PrintsStacked};
ghost use Rattle.prices.specs.Cases.{dual_fuel_text, firm_and_tolerance_text, mixed_text};
ghost use Rattle.prices.specs.Cases.{refusals_text, riders_on_riders_text, riders_text};
ghost use Rattle.prices.specs.Cases.{seasons_text, stacks_text};

use crate::days::Pattern;
use crate::terms::{
    AFFORDABILITY, DEAR_AFFORDABILITY, FIRM, FRANCHISE, SECOND_AFFORDABILITY, SECOND_FRANCHISE,
    TOLERANCE, WEATHER, large, small,
};
use classes::{Class, SmallDualFuel};
use gas::{ClosingNumbers, DayKind, DayRecord, Facts, MonthNumbers, Therms};
use pipelines::Northern;
use report::{price_header, price_table};
use riders::{Interim, Rider};
use std::alloc::Global;
use std::fmt;

// A November with an increase in force, in which the fifth is the gas year's first unauthorized
// day.
const NOVEMBER: MonthNumbers = MonthNumbers {
    month: 0,
    closing: ClosingNumbers {
        index: 30_001,
        interruptible: 1_000,
        firm: 1_200,
    },
    increase: 137,
    first: 5,
};

// A May after the first unauthorized day, without an increase.
const MAY: MonthNumbers = MonthNumbers {
    month: 6,
    closing: ClosingNumbers {
        index: 25_003,
        interruptible: 900,
        firm: 1_100,
    },
    increase: 0,
    first: 0,
};

// A December with an increase in force.
const DECEMBER: MonthNumbers = MonthNumbers {
    month: 1,
    closing: ClosingNumbers {
        index: 30_000,
        interruptible: 1_000,
        firm: 1_000,
    },
    increase: 1_000,
    first: 0,
};

// A March, the last month of winter rates, and an April.
const MARCH: MonthNumbers = MonthNumbers {
    month: 4,
    closing: ClosingNumbers {
        index: 28_000,
        interruptible: 950,
        firm: 1_150,
    },
    increase: 50,
    first: 0,
};

const APRIL: MonthNumbers = MonthNumbers { month: 5, ..MARCH };

// The facts of a month, which is lawful.
fn lawful<'a>(numbers: MonthNumbers, days: &'a [DayRecord]) -> Facts<'a>
    requires { checked_facts (record { numbers = numbers; days = days.now }) ≡
        Ok (record { numbers = numbers; days = days.now }) }
    ensures { Ok (facts_of result) ≡ checked_facts (record { numbers = numbers; days = days.now }) }
{
    Facts::new(numbers, days).unwrap()
}

// Small dual fuel in its upper band.
const UPPER: SmallDualFuel = SmallDualFuel {
    annual: Therms { count: 120_000 },
};

// The dual fuel classes on Northern.
fn dual_fuel(text: &mut String, november: &Facts, may: &Facts) -> Result<(), fmt::Error>
    ensures { OnOk result (string_bytes text.new ≡
        string_bytes text.old ++ dual_fuel_text (facts_of november.now) (facts_of may.now)) }
{
    let upper = Class {
        terms: UPPER,
        pipeline: Northern,
    };
    price_table(text, 1, &small(), november)?;
    price_table(text, 2, &small(), may)?;
    price_table(text, 3, &upper, november)?;
    price_table(text, 4, &large(), november)?;
    price_table(text, 5, &large(), may)?;
    Ok(())
}

// The class with a base level, and the pipeline with tolerances.
fn firm_and_tolerance(text: &mut String, november: &Facts, may: &Facts) -> Result<(), fmt::Error>
    ensures { OnOk result (string_bytes text.new ≡
        string_bytes text.old ++
        firm_and_tolerance_text (facts_of november.now) (facts_of may.now)) }
{
    let firm = Class {
        terms: FIRM,
        pipeline: Northern,
    };
    price_table(text, 6, &firm, november)?;
    price_table(text, 7, &firm, may)?;
    price_table(
        text,
        8,
        &Class {
            terms: UPPER,
            pipeline: TOLERANCE,
        },
        november,
    )?;
    price_table(
        text,
        9,
        &Class {
            terms: FIRM,
            pipeline: TOLERANCE,
        },
        may,
    )?;
    Ok(())
}

// Each rider alone.
fn riders(text: &mut String, november: &Facts, may: &Facts) -> Result<(), fmt::Error>
    ensures { OnOk result (string_bytes text.new ≡
        string_bytes text.old ++ riders_text (facts_of november.now) (facts_of may.now)) }
{
    let weather = WEATHER.on(small());
    price_table(text, 10, &Interim.on(small()), november)?;
    price_table(text, 11, &FRANCHISE.on(small()), november)?;
    price_table(text, 12, &AFFORDABILITY.on(small()), november)?;
    price_table(text, 13, &weather, november)?;
    price_table(text, 14, &weather, may)?;
    Ok(())
}

// Riders upon riders of other kinds, and a franchise upon a franchise.
fn riders_on_riders(text: &mut String, november: &Facts) -> Result<(), fmt::Error>
    ensures { OnOk result (string_bytes text.new ≡
        string_bytes text.old ++ riders_on_riders_text (facts_of november.now)) }
{
    let franchise = FRANCHISE.on(small());
    let all_but_franchise = Interim.on(WEATHER.on(AFFORDABILITY.on(small())));
    price_table(text, 15, &FRANCHISE.on(Interim.on(small())), november)?;
    price_table(text, 16, &Interim.on(franchise), november)?;
    price_table(text, 17, &SECOND_FRANCHISE.on(franchise), november)?;
    price_table(text, 18, &FRANCHISE.on(all_but_franchise), november)?;
    Ok(())
}

// Amounts past their limit: at the class, at a rider, and at both.
fn refusals(text: &mut String, critical: &Facts, normal: &Facts) -> Result<(), fmt::Error>
    ensures { OnOk result (string_bytes text.new ≡
        string_bytes text.old ++ refusals_text (facts_of critical.now) (facts_of normal.now)) }
{
    let interim = Interim.on(DEAR_AFFORDABILITY.on(large()));
    price_table(text, 19, &FRANCHISE.on(large()), critical)?;
    price_table(text, 20, &interim, normal)?;
    price_table(text, 21, &FRANCHISE.on(interim), critical)?;
    Ok(())
}

// The months at which Northern's rates change.
fn seasons(text: &mut String, march: &Facts, april: &Facts) -> Result<(), fmt::Error>
    ensures { OnOk result (string_bytes text.new ≡
        string_bytes text.old ++ seasons_text (facts_of march.now) (facts_of april.now)) }
{
    price_table(text, 22, &small(), march)?;
    price_table(text, 23, &small(), april)?;
    Ok(())
}

// Riders upon riders of their own kind, and a share of a sum below zero.
fn stacks(text: &mut String, november: &Facts, idle: &Facts) -> Result<(), fmt::Error>
    ensures { OnOk result (string_bytes text.new ≡
        string_bytes text.old ++ stacks_text (facts_of november.now) (facts_of idle.now)) }
{
    let affordability = AFFORDABILITY.on(small());
    let interim = Interim.on(small());
    let weather = WEATHER.on(small());
    price_table(text, 24, &SECOND_AFFORDABILITY.on(affordability), november)?;
    price_table(text, 25, &Interim.on(interim), november)?;
    price_table(text, 26, &WEATHER.on(weather), november)?;
    price_table(text, 27, &FRANCHISE.on(large()), idle)?;
    Ok(())
}

// The cases of November and May.
fn november_and_may(text: &mut String, november: &Facts, may: &Facts) -> Result<(), fmt::Error>
    ensures { OnOk result (string_bytes text.new ≡
        string_bytes text.old ++ mixed_text (facts_of november.now) (facts_of may.now)) }
{
    dual_fuel(text, november, may)?;
    firm_and_tolerance(text, november, may)?;
    riders(text, november, may)?;
    riders_on_riders(text, november)?;
    Ok(())
}

// The mixed November and May. The facts borrow the days, so that each pair of months is made where
// its cases are printed.
#[tactic(auto, using(crate::proofs::Months::as_many))]
fn mixed_months(text: &mut String, alloc: Global) -> anyhow::Result<()>
    ensures { OnOk result (Grows PrintsMixed (string_bytes text.old) (string_bytes text.new)) }
{
    let november = Pattern::Mixed { base: 1_000 }.days(alloc, 30)?;
    let may = Pattern::Mixed { base: 900 }.days(alloc, 31)?;
    let november = lawful(NOVEMBER, november.as_slice());
    let may = lawful(MAY, may.as_slice());
    november_and_may(text, &november, &may)?;
    Ok(())
}

// The full December, once critical and once normal.
#[tactic(auto, using(crate::proofs::Months::as_many))]
fn full_months(text: &mut String, alloc: Global) -> anyhow::Result<()>
    ensures { OnOk result (Grows PrintsFull (string_bytes text.old) (string_bytes text.new)) }
{
    let critical = Pattern::Full {
        kind: DayKind::Critical,
    }
    .days(alloc, 31)?;
    let normal = Pattern::Full {
        kind: DayKind::Normal,
    }
    .days(alloc, 31)?;
    let critical = lawful(DECEMBER, critical.as_slice());
    let normal = lawful(DECEMBER, normal.as_slice());
    refusals(text, &critical, &normal)?;
    Ok(())
}

// March, and an April within the tolerance of a month.
#[tactic(auto, using(crate::proofs::Months::as_many))]
fn spring_months(text: &mut String, alloc: Global) -> anyhow::Result<()>
    ensures { OnOk result (Grows PrintsSpring (string_bytes text.old) (string_bytes text.new)) }
{
    let march = Pattern::Mixed { base: 1_000 }.days(alloc, 31)?;
    let april = Pattern::Mixed { base: 930 }.days(alloc, 30)?;
    let march = lawful(MARCH, march.as_slice());
    let april = lawful(APRIL, april.as_slice());
    seasons(text, &march, &april)?;
    Ok(())
}

// November once more, and an idle December.
#[tactic(auto, using(crate::proofs::Months::as_many))]
fn stacked_months(text: &mut String, alloc: Global) -> anyhow::Result<()>
    ensures { OnOk result (Grows PrintsStacked (string_bytes text.old) (string_bytes text.new)) }
{
    let november = Pattern::Mixed { base: 1_000 }.days(alloc, 30)?;
    let idle = Pattern::Idle.days(alloc, 31)?;
    let november = lawful(NOVEMBER, november.as_slice());
    let idle = lawful(DECEMBER, idle.as_slice());
    stacks(text, &november, &idle)?;
    Ok(())
}

/// Everything that the program prints (`docs/TARIFF.md`).
pub fn output(alloc: Global) -> anyhow::Result<String>
    ensures { IfOk result (λ text. PrintsAll (string_bytes text)) }
{
    let mut text = String::new(alloc);
    price_header(&mut text)?;
    mixed_months(&mut text, alloc)?;
    full_months(&mut text, alloc)?;
    spring_months(&mut text, alloc)?;
    stacked_months(&mut text, alloc)?;
    Ok(text)
}
