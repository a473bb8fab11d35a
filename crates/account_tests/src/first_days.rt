//! The gas year's first unauthorized day. Each of its unauthorized therms costs the day's supply
//! cost and 300,000 millicents, one of any other day the supply cost and 600,000. All figures are
//! by hand.
use crate::fixtures::{
    OPEN, SMALL, Written, accepts, closing, correction, ends_with, even, posting,
};
use account::Account;
use gas::{DayNumbers, Schedule};
use journal::Day;
use std::process::Abort;

// A curtailed day on which 10 therms were nominated, received and used, some of them after the
// notice.
fn curtailed(month: u8, day: u8, after_notice: u32, supply_cost: u32) -> Day {
    Day {
        numbers: DayNumbers {
            curtailed: 1,
            after_notice,
            supply_cost,
            ..even(month, day, 10).numbers
        },
        ..even(month, day, 10)
    }
}

// No therms of November are unauthorized: on the first all were used before the notice, and the
// second is not curtailed.
fn november(day: u8) -> Day {
    match day {
        1 => curtailed(0, 1, 0, 1_000),
        2 => Day {
            numbers: DayNumbers {
                after_notice: 10,
                ..even(0, 2, 10).numbers
            },
            ..even(0, 2, 10)
        },
        _ => even(0, day, 10),
    }
}

fn december(day: u8) -> Day {
    match day {
        5 => curtailed(1, 5, 10, 1_000),
        20 => curtailed(1, 20, 2, 500),
        _ => even(1, day, 10),
    }
}

// December, then November, each from its last day to its first, and the closings of both.
fn close_both<S: Schedule>(rt: &impl Abort, account: &mut Account<S>) {
    accepts(rt, account, OPEN);
    for back in 1..32 {
        let day = december(32 - back);
        accepts(rt, account, posting(day));
    }
    for back in 1..31 {
        let day = november(31 - back);
        accepts(rt, account, posting(day));
    }
    accepts(rt, account, closing(0));
    accepts(rt, account, closing(1));
}

// Of December 5 10 × 301,000, and of the 20th 2 × 600,500. Item 2 is 12,421 × 300 and × 310.
const CLOSED: [Written; 5] = [
    (0, 1, 0, 15_550_000),
    (0, 2, 0, 3_726_300),
    (1, 1, 0, 15_550_000),
    (1, 2, 0, 3_850_510),
    (1, 6, 0, 4_211_000),
];

#[test]
fn it_is_the_first_by_date(rt: HostRuntime) {
    let mut account = Account::new(SMALL);
    close_both(&rt, &mut account);
    assert_eq!(rt; account.line_count(), 5);
    ends_with(&rt, &account, &CLOSED);
}

#[test]
fn a_correction_makes_another_day_the_first(rt: HostRuntime) {
    let mut account = Account::new(SMALL);
    close_both(&rt, &mut account);
    // 4 × 302,000 on November 20; each of the 10 therms of December 5 costs 300,000 more
    let day = curtailed(0, 20, 4, 2_000);
    accepts(&rt, &mut account, correction(day));
    assert_eq!(rt; account.line_count(), 7);
    ends_with(&rt, &account, &[(0, 6, 0, 1_208_000), (1, 6, 0, 3_000_000)]);
    // 3 × 300,000 on November 10, and each of the 4 therms of the 20th 300,000 more
    let day = curtailed(0, 10, 3, 0);
    accepts(&rt, &mut account, correction(day));
    assert_eq!(rt; account.line_count(), 8);
    ends_with(&rt, &account, &[(0, 6, 0, 2_100_000)]);
}

#[test]
fn a_correction_takes_the_first_day_away(rt: HostRuntime) {
    let mut account = Account::new(SMALL);
    close_both(&rt, &mut account);
    let day = curtailed(0, 20, 4, 2_000);
    accepts(&rt, &mut account, correction(day));
    let day = november(20);
    accepts(&rt, &mut account, correction(day));
    assert_eq!(rt; account.line_count(), 9);
    ends_with(
        &rt,
        &account,
        &[(0, 6, 0, -1_208_000), (1, 6, 0, -3_000_000)],
    );
    // then December 20 is the first: 10 × 301,000 less, and 2 × 300,000 less
    let day = even(1, 5, 10);
    accepts(&rt, &mut account, correction(day));
    assert_eq!(rt; account.line_count(), 10);
    ends_with(&rt, &account, &[(1, 6, 0, -3_610_000)]);
}
