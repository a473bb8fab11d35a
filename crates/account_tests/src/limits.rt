//! The limits of what is told, met and passed by one, and the largest numbers that there are.
use crate::fixtures::{
    OPEN, QUIET, SMALL, accepts, closing, correction, even, post, posting, refuses, written,
};
use account::Account;
use gas::{ClosingNumbers, DayNumbers};
use journal::{Day, Record};
use std::process::Abort;

fn opening(leap: u8, increase: u16, first: u8, last: u8) -> Record {
    Record::Open {
        leap,
        increase,
        first,
        last,
    }
}

#[test]
fn openings(rt: HostRuntime) {
    for record in [opening(0, 0, 0, 11), opening(1, 1_000, 11, 11)] {
        let mut account = Account::new(SMALL);
        accepts(&rt, &mut account, record);
    }
    let mut account = Account::new(SMALL);
    for (record, number) in [
        (opening(0, 0, 0, 12), 3),
        (opening(0, 0, 12, 12), 3),
        (opening(0, 0, 11, 10), 3),
        (opening(0, 0, 0, 255), 3),
        (opening(0, 0, 255, 0), 3),
        (opening(255, 65_535, 255, 255), 3),
        (opening(2, 0, 0, 0), 6),
        (opening(255, 65_535, 0, 0), 6),
        (opening(0, 1_001, 0, 0), 8),
        (opening(0, 65_535, 0, 0), 8),
    ] {
        refuses(&rt, &mut account, record, number);
    }
}

// A day with each number as high as may be.
const MOST: DayNumbers = DayNumbers {
    kind: 3,
    curtailed: 1,
    nomination: 200_000,
    receipts: 200_000,
    reading: 200_000,
    after_notice: 200_000,
    supply_cost: 2_000_000,
    variance_rate: 2_000_000,
};

// It is the last of November.
const FULL: Day = Day {
    month: 0,
    day: 30,
    numbers: MOST,
};

// That day with each number past its limit by one, and as high as its type holds.
const PAST: [(Day, u8); 23] = [
    (Day { month: 12, ..FULL }, 3),
    (Day { month: 255, ..FULL }, 3),
    (Day { day: 0, ..FULL }, 4),
    (Day { day: 31, ..FULL }, 4),
    (Day { day: 255, ..FULL }, 4),
    (
        Day {
            numbers: DayNumbers { kind: 4, ..MOST },
            ..FULL
        },
        5,
    ),
    (
        Day {
            numbers: DayNumbers { kind: 255, ..MOST },
            ..FULL
        },
        5,
    ),
    (
        Day {
            numbers: DayNumbers {
                curtailed: 2,
                ..MOST
            },
            ..FULL
        },
        6,
    ),
    (
        Day {
            numbers: DayNumbers {
                curtailed: 255,
                ..MOST
            },
            ..FULL
        },
        6,
    ),
    (
        Day {
            numbers: DayNumbers {
                nomination: 200_001,
                ..MOST
            },
            ..FULL
        },
        7,
    ),
    (
        Day {
            numbers: DayNumbers {
                nomination: u32::MAX,
                ..MOST
            },
            ..FULL
        },
        7,
    ),
    (
        Day {
            numbers: DayNumbers {
                receipts: 200_001,
                ..MOST
            },
            ..FULL
        },
        7,
    ),
    (
        Day {
            numbers: DayNumbers {
                receipts: u32::MAX,
                ..MOST
            },
            ..FULL
        },
        7,
    ),
    (
        Day {
            numbers: DayNumbers {
                reading: 200_001,
                ..MOST
            },
            ..FULL
        },
        7,
    ),
    (
        Day {
            numbers: DayNumbers {
                reading: u32::MAX,
                ..MOST
            },
            ..FULL
        },
        7,
    ),
    (
        Day {
            numbers: DayNumbers {
                reading: u32::MAX,
                after_notice: u32::MAX,
                ..MOST
            },
            ..FULL
        },
        7,
    ),
    (
        Day {
            numbers: DayNumbers {
                reading: 199_999,
                ..MOST
            },
            ..FULL
        },
        7,
    ),
    (
        Day {
            numbers: DayNumbers {
                after_notice: 200_001,
                ..MOST
            },
            ..FULL
        },
        7,
    ),
    (
        Day {
            numbers: DayNumbers {
                after_notice: u32::MAX,
                ..MOST
            },
            ..FULL
        },
        7,
    ),
    (
        Day {
            numbers: DayNumbers {
                supply_cost: 2_000_001,
                ..MOST
            },
            ..FULL
        },
        7,
    ),
    (
        Day {
            numbers: DayNumbers {
                supply_cost: u32::MAX,
                ..MOST
            },
            ..FULL
        },
        7,
    ),
    (
        Day {
            numbers: DayNumbers {
                variance_rate: 2_000_001,
                ..MOST
            },
            ..FULL
        },
        7,
    ),
    (
        Day {
            numbers: DayNumbers {
                variance_rate: u32::MAX,
                ..MOST
            },
            ..FULL
        },
        7,
    ),
];

#[test]
fn days(rt: HostRuntime) {
    let mut account = Account::new(SMALL);
    accepts(&rt, &mut account, OPEN);
    accepts(&rt, &mut account, posting(FULL));
    for (day, number) in PAST {
        refuses(&rt, &mut account, posting(day), number);
        refuses(&rt, &mut account, correction(day), number);
    }
    accepts(&rt, &mut account, correction(FULL));
}

// Of each month but February, the day past its end.
const PAST_ENDS: [(u8, u8); 11] = [
    (0, 31),
    (1, 32),
    (2, 32),
    (4, 32),
    (5, 31),
    (6, 32),
    (7, 31),
    (8, 32),
    (9, 32),
    (10, 31),
    (11, 32),
];

// All days of all months can be posted and none past an end; with them all twelve months are
// closed, and then none can be.
fn whole_year(rt: &impl Abort, leap: u8, past_february: u8) {
    let mut account = Account::new(SMALL);
    accepts(rt, &mut account, opening(leap, 0, 0, 11));
    post(rt, &mut account, 1..past_february, even(3, 0, 0));
    refuses(rt, &mut account, posting(even(3, past_february, 0)), 4);
    for (month, past) in PAST_ENDS {
        post(rt, &mut account, 1..past, even(month, 0, 0));
        refuses(rt, &mut account, posting(even(month, past, 0)), 4);
        refuses(rt, &mut account, correction(even(month, past, 0)), 4);
    }
    for month in 0..12 {
        accepts(rt, &mut account, closing(month));
    }
    for month in 0..12 {
        refuses(rt, &mut account, closing(month), 24);
    }
}

#[test]
fn a_common_year(rt: HostRuntime) {
    whole_year(&rt, 0, 29);
}

#[test]
fn a_leap_year(rt: HostRuntime) {
    whole_year(&rt, 1, 30);
}

fn rated(month: u8, index: u32, interruptible: u32, firm: u32) -> Record {
    Record::Close {
        month,
        numbers: ClosingNumbers {
            index,
            interruptible,
            firm,
        },
    }
}

#[test]
fn closings(rt: HostRuntime) {
    let mut account = Account::new(SMALL);
    accepts(&rt, &mut account, OPEN);
    post(&rt, &mut account, 1..31, QUIET);
    for (record, number) in [
        (rated(12, 0, 0, 0), 3),
        (rated(255, u32::MAX, u32::MAX, u32::MAX), 3),
        (rated(0, 2_000_001, 0, 0), 7),
        (rated(0, u32::MAX, 0, 0), 7),
        (rated(0, 0, 2_000_001, 0), 7),
        (rated(0, 0, u32::MAX, 0), 7),
        (rated(0, 0, 0, 2_000_001), 7),
        (rated(0, 0, 0, u32::MAX), 7),
        (rated(11, 0, 0, 0), 24),
    ] {
        refuses(&rt, &mut account, record, number);
    }
    accepts(&rt, &mut account, rated(0, 2_000_000, 2_000_000, 2_000_000));
}

#[test]
fn payments(rt: HostRuntime) {
    let mut account = Account::new(SMALL);
    accepts(&rt, &mut account, OPEN);
    for amount in [0, 10_000_000_000_001, u64::MAX] {
        refuses(&rt, &mut account, Record::Pay { amount }, 9);
    }
    accepts(&rt, &mut account, Record::Pay { amount: 1 });
    accepts(
        &rt,
        &mut account,
        Record::Pay {
            amount: 10_000_000_000_000,
        },
    );
    assert_eq!(rt; written(&account, 1), Ok((12, 13, 0, -1)));
    assert_eq!(rt; written(&account, 2), Ok((12, 13, 0, -10_000_000_000_000)));
}

fn settling(final_increase: u16, interest: u16) -> Record {
    Record::Settle {
        final_increase,
        interest,
    }
}

#[test]
fn settlements(rt: HostRuntime) {
    let mut account = Account::new(SMALL);
    accepts(&rt, &mut account, OPEN);
    post(&rt, &mut account, 1..31, QUIET);
    accepts(&rt, &mut account, closing(0));
    for record in [
        settling(1_001, 0),
        settling(65_535, 0),
        settling(0, 1_001),
        settling(0, 65_535),
    ] {
        refuses(&rt, &mut account, record, 8);
    }
    accepts(&rt, &mut account, settling(1_000, 1_000));
}
