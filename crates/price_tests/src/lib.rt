//! Tests of prices: refusals in their order, the worked edges on the code, and rounding at its
//! limits.
#![tactic(auto)]

#[cfg(test)]
mod days {
    use gas::{DayNumbers, DayRecord, InputFault};

    const LAWFUL: DayNumbers = DayNumbers {
        kind: 3,
        curtailed: 1,
        nomination: 200_000,
        receipts: 200_000,
        reading: 200_000,
        after_notice: 200_000,
        supply_cost: 2_000_000,
        variance_rate: 2_000_000,
    };

    // The number of the refusal, if the day is refused. One line for each type and its fault, here
    // and below.
    fn refusal(numbers: DayNumbers) -> Option<u8> {
        DayRecord::try_from(numbers).err().map(InputFault::number)
    }

    #[test]
    fn limits_are_lawful(rt: HostRuntime) {
        assert_eq!(rt; refusal(LAWFUL), None);
    }

    #[test]
    fn kind_then_mark_then_quantities(rt: HostRuntime) {
        let quantity = DayNumbers {
            nomination: 200_001,
            ..LAWFUL
        };
        let mark = DayNumbers {
            curtailed: 2,
            ..quantity
        };
        assert_eq!(rt; refusal(quantity), Some(7));
        assert_eq!(rt; refusal(mark), Some(6));
        assert_eq!(rt; refusal(DayNumbers { kind: 4, ..mark }), Some(5));
    }

    #[test]
    fn each_quantity_has_its_limit(rt: HostRuntime) {
        assert_eq!(rt;
            refusal(DayNumbers {
                receipts: 200_001,
                ..LAWFUL
            }),
            Some(7)
        );
        assert_eq!(rt;
            refusal(DayNumbers {
                reading: 200_001,
                ..LAWFUL
            }),
            Some(7)
        );
        assert_eq!(rt;
            refusal(DayNumbers {
                reading: 199_999,
                ..LAWFUL
            }),
            Some(7),
            "more after notice than metered"
        );
        assert_eq!(rt;
            refusal(DayNumbers {
                supply_cost: 2_000_001,
                ..LAWFUL
            }),
            Some(7)
        );
        assert_eq!(rt;
            refusal(DayNumbers {
                variance_rate: 2_000_001,
                ..LAWFUL
            }),
            Some(7)
        );
    }
}

#[cfg(test)]
mod months {
    use gas::{
        ClosingNumbers, DayNumbers, DayRecord, Facts, InputFault, MonthNumbers, Totals,
        TotalsNumbers,
    };
    use std::test::Fail;

    const QUIET: DayNumbers = DayNumbers {
        kind: 0,
        curtailed: 0,
        nomination: 0,
        receipts: 0,
        reading: 0,
        after_notice: 0,
        supply_cost: 0,
        variance_rate: 0,
    };

    const CLOSING: ClosingNumbers = ClosingNumbers {
        index: 2_000_000,
        interruptible: 2_000_000,
        firm: 2_000_000,
    };

    const FEBRUARY: MonthNumbers = MonthNumbers {
        month: 3,
        closing: CLOSING,
        increase: 1_000,
        first: 28,
    };

    const TOTALS: TotalsNumbers = TotalsNumbers {
        receipts: 6_200_000,
        readings: 6_200_000,
        closing: CLOSING,
    };

    // The number of the refusal of a month with so many quiet days, if it is refused.
    fn refusal(rt: HostRuntime, numbers: MonthNumbers, count: u8) -> Result<Option<u8>, Fail> {
        let quiet = DayRecord::try_from(QUIET).map_err(|_| "a quiet day is refused")?;
        let mut days = Vec::new(rt.alloc());
        for _ in 0..count {
            days.push(quiet)?;
        }
        let refused = Facts::new(numbers, days.as_slice()).err();
        Ok(refused.map(InputFault::number))
    }

    #[test]
    fn february_has_28_or_29_days(rt: HostRuntime) -> Result<(), Fail> {
        assert_eq!(rt; refusal(rt, FEBRUARY, 28)?, None);
        assert_eq!(rt; refusal(rt, FEBRUARY, 29)?, None);
        assert_eq!(rt; refusal(rt, FEBRUARY, 30)?, Some(25));
        assert_eq!(rt;
            refusal(
                rt,
                MonthNumbers {
                    month: 2,
                    ..FEBRUARY
                },
                28,
            )?,
            Some(25)
        );
        Ok(())
    }

    #[test]
    fn lowest_number_first(rt: HostRuntime) -> Result<(), Fail> {
        let increase = MonthNumbers {
            increase: 1_001,
            ..FEBRUARY
        };
        let firm = MonthNumbers {
            closing: ClosingNumbers {
                firm: 2_000_001,
                ..CLOSING
            },
            ..increase
        };
        let first = MonthNumbers { first: 29, ..firm };
        assert_eq!(rt; refusal(rt, FEBRUARY, 27)?, Some(25));
        assert_eq!(rt; refusal(rt, increase, 27)?, Some(8));
        assert_eq!(rt; refusal(rt, firm, 27)?, Some(7));
        assert_eq!(rt; refusal(rt, first, 27)?, Some(4));
        assert_eq!(rt;
            refusal(rt, MonthNumbers { month: 12, ..first }, 27)?,
            Some(3)
        );
        Ok(())
    }

    #[test]
    fn first_day_by_the_months_end(rt: HostRuntime) -> Result<(), Fail> {
        let last = MonthNumbers {
            first: 29,
            ..FEBRUARY
        };
        let november = MonthNumbers {
            month: 0,
            first: 30,
            ..FEBRUARY
        };
        assert_eq!(rt; refusal(rt, last, 28)?, Some(4));
        assert_eq!(rt; refusal(rt, last, 29)?, None);
        assert_eq!(rt; refusal(rt, november, 29)?, Some(25));
        assert_eq!(rt;
            refusal(
                rt,
                MonthNumbers {
                    first: 31,
                    ..november
                },
                31,
            )?,
            Some(4)
        );
        Ok(())
    }

    // The number of the refusal of a month's totals, if they are refused.
    fn totals_refusal(numbers: TotalsNumbers) -> Option<u8> {
        Totals::try_from(numbers).err().map(InputFault::number)
    }

    #[test]
    fn totals_have_limits(rt: HostRuntime) {
        assert_eq!(rt; totals_refusal(TOTALS), None);
        assert_eq!(rt;
            totals_refusal(TotalsNumbers {
                receipts: 6_200_001,
                ..TOTALS
            }),
            Some(7)
        );
        assert_eq!(rt;
            totals_refusal(TotalsNumbers {
                readings: 6_200_001,
                ..TOTALS
            }),
            Some(7)
        );
        assert_eq!(rt;
            totals_refusal(TotalsNumbers {
                closing: ClosingNumbers {
                    index: 2_000_001,
                    ..CLOSING
                },
                ..TOTALS
            }),
            Some(7)
        );
    }
}

#[cfg(test)]
mod edges {
    use classes::{FirmInterruptible, RateClass};
    use gas::{ClosingNumbers, DayNumbers, DayRecord, Month, Pipeline, Totals, TotalsNumbers};
    use pipelines::Northern;
    use std::test::Fail;

    fn day(
        kind: u8,
        curtailed: u8,
        nomination: u32,
        reading: u32,
        after_notice: u32,
    ) -> Result<DayRecord, Fail> {
        let numbers = DayNumbers {
            kind,
            curtailed,
            nomination,
            receipts: 0,
            reading,
            after_notice,
            supply_cost: 0,
            variance_rate: 0,
        };
        Ok(DayRecord::try_from(numbers).map_err(|_| "the day is refused")?)
    }

    // The charge of a November day on Northern.
    fn charge(kind: u8, curtailed: u8, nomination: u32, reading: u32) -> Result<i64, Fail> {
        let november = Month::try_from(0).map_err(|_| "November is refused")?;
        let day = day(kind, curtailed, nomination, reading, 0)?;
        Ok(Northern.daily(november, &day).amount)
    }

    // The balancing of a month on Northern.
    fn balance(receipts: u32, readings: u32) -> Result<i64, Fail> {
        let numbers = TotalsNumbers {
            receipts,
            readings,
            closing: ClosingNumbers {
                index: 30_000,
                interruptible: 1_000,
                firm: 1_000,
            },
        };
        let totals = Totals::try_from(numbers).map_err(|_| "the totals are refused")?;
        Ok(Northern.monthly(&totals).amount)
    }

    #[test]
    fn days(rt: HostRuntime) -> Result<(), Fail> {
        assert_eq!(rt; charge(0, 0, 1_000, 1_050)?, 0);
        assert_eq!(rt; charge(0, 0, 1_000, 1_051)?, 335_070);
        assert_eq!(rt; charge(0, 1, 1_000, 900)?, 0);
        assert_eq!(rt; charge(2, 0, 1_000, 1_051)?, 609_000);
        assert_eq!(rt; charge(2, 0, 19, 20)?, 109_000);
        Ok(())
    }

    #[test]
    fn months(rt: HostRuntime) -> Result<(), Fail> {
        assert_eq!(rt; balance(1_000, 1_020)?, 620_000);
        assert_eq!(rt; balance(1_000, 1_021)?, 777_000);
        assert_eq!(rt; balance(1_021, 1_000)?, -525_000);
        Ok(())
    }

    #[test]
    fn unauthorized_therms(rt: HostRuntime) -> Result<(), Fail> {
        let firm = FirmInterruptible::try_from(200).map_err(|_| "the base level is refused")?;
        assert_eq!(rt; firm.unauthorized(&day(0, 1, 0, 500, 400)?).count, 300);
        Ok(())
    }
}

#[cfg(test)]
mod terms {
    use classes::FirmInterruptible;
    use gas::{InputFault, Millicents, Month, PerMille, Rate};
    use pipelines::{Tolerance, ToleranceNumbers};
    use riders::{GasYear, weather_rate};
    use std::test::Fail;

    const TOLERANCE: ToleranceNumbers = ToleranceNumbers {
        day: 100,
        month: 100,
        over: 200,
        under: 200,
        rate: 2_000_000,
    };

    // The number of the refusal of a tolerance pipeline, if it is refused.
    fn refusal(numbers: ToleranceNumbers) -> Option<u8> {
        Tolerance::try_from(numbers).err().map(InputFault::number)
    }

    #[test]
    fn rate_then_percentages(rt: HostRuntime) {
        let day = ToleranceNumbers {
            day: 101,
            ..TOLERANCE
        };
        assert_eq!(rt; refusal(TOLERANCE), None);
        assert_eq!(rt; refusal(day), Some(8));
        assert_eq!(rt;
            refusal(ToleranceNumbers {
                month: 101,
                ..TOLERANCE
            }),
            Some(8)
        );
        assert_eq!(rt;
            refusal(ToleranceNumbers {
                over: 201,
                ..TOLERANCE
            }),
            Some(8)
        );
        assert_eq!(rt;
            refusal(ToleranceNumbers {
                under: 201,
                ..TOLERANCE
            }),
            Some(8)
        );
        assert_eq!(rt;
            refusal(ToleranceNumbers {
                rate: 2_000_001,
                ..day
            }),
            Some(7)
        );
    }

    // The number of the refusal of a base level, if it is refused.
    fn base_refusal(base: u32) -> Option<u8> {
        FirmInterruptible::try_from(base)
            .err()
            .map(InputFault::number)
    }

    #[test]
    fn base_level(rt: HostRuntime) {
        assert_eq!(rt; base_refusal(199), Some(7));
        assert_eq!(rt; base_refusal(200), None);
        assert_eq!(rt; base_refusal(200_000), None);
        assert_eq!(rt; base_refusal(200_001), Some(7));
    }

    // A share of a sum, or the number of its refusal.
    fn share(share: u16, amount: i64) -> Result<i64, u8> {
        let share = PerMille::try_from(share).map_err(InputFault::number)?;
        Ok(share.of(Millicents { amount }).amount)
    }

    #[test]
    fn shares_of_sums(rt: HostRuntime) {
        assert_eq!(rt; share(1, 499), Ok(0));
        assert_eq!(rt; share(1, 500), Ok(1));
        assert_eq!(rt; share(137, 52_813_000), Ok(7_235_381));
        assert_eq!(rt; share(1_000, -1), Ok(0));
        assert_eq!(rt;
            share(1_000, 9_223_372_036_854_775_807),
            Ok(9_223_372_036_854_775_807)
        );
        assert_eq!(rt; share(1_001, 1), Err(8));
        assert!(rt; Rate::try_from(2_000_001).is_err());
    }

    // The weather rate of a month, or the number of the refusal of its gas year.
    fn weather(start: u16, month: u8) -> Result<Result<u32, u8>, Fail> {
        let month = Month::try_from(month).map_err(|_| "the month is refused")?;
        let year = GasYear::try_from(start).map_err(InputFault::number);
        Ok(year.map(|year| weather_rate(year, month).price))
    }

    #[test]
    fn weather_at_the_edges(rt: HostRuntime) -> Result<(), Fail> {
        assert_eq!(rt; weather(2019, 0)?, Err(11));
        assert_eq!(rt; weather(2020, 9)?, Ok(0));
        assert_eq!(rt; weather(2020, 10)?, Ok(19_464));
        assert_eq!(rt; weather(2021, 1)?, Ok(7_786));
        assert_eq!(rt; weather(2021, 2)?, Ok(4_610));
        assert_eq!(rt; weather(2022, 4)?, Ok(3_932));
        assert_eq!(rt; weather(2022, 6)?, Ok(9_831));
        assert_eq!(rt; weather(2026, 0)?, Ok(3_932));
        assert_eq!(rt; weather(2026, 1)?, Ok(0));
        assert_eq!(rt; weather(2027, 0)?, Err(11));
        Ok(())
    }
}
