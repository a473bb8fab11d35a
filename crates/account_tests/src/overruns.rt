//! Prices past 10^13, refused with 28 and with the month, the item and the layer.
use crate::fixtures::{
    DEAR, OPEN, QUIET, SMALL, accepts, call, closing, correction, even, post, refuses,
};
use account::{Account, JournalFault};
use gas::{DayNumbers, Item, Layer, PerMille, PriceValues, Schedule, ScheduleFault};
use journal::{Day, Record};
use ledger::AccountFault;
use riders::{Franchise, Interim, Rider};
use std::process::Abort;

// The call is refused for that price, by name and as a record, and the account answers as before.
fn overruns<S: Schedule>(
    rt: &impl Abort,
    account: &mut Account<S>,
    record: Record,
    month: u8,
    item: Item,
    layer: Layer,
) {
    let fault = ScheduleFault::PastLimit { month, item, layer };
    let answer = Err(AccountFault::Schedule(fault));
    refuses(rt, account, record, 28);
    assert_eq!(rt; call(account, record), answer);
}

fn opening(increase: u16, last: u8) -> Record {
    Record::Open {
        leap: 0,
        increase,
        first: 0,
        last,
    }
}

fn settling(final_increase: u16) -> Record {
    Record::Settle {
        final_increase,
        interest: 0,
    }
}

// Posts the days of a month up to the one past its end, 25 of them with so many therms and the
// others with none.
fn post_month<S: Schedule>(
    rt: &impl Abort,
    account: &mut Account<S>,
    month: u8,
    past: u8,
    therms: u32,
) {
    post(rt, account, 1..26, even(month, 0, therms));
    post(rt, account, 26..past, even(month, 0, 0));
}

// A price past its limit in May, of affordability at its rider, by itself, of a call, and of a
// record at byte 40; and a fault that has no values.
#[test]
fn faults_answer_their_values(rt: HostRuntime) {
    let values = PriceValues {
        month: 6,
        item: 7,
        layer: 3,
    };
    let fault = ScheduleFault::PastLimit {
        month: 6,
        item: Item::Affordability,
        layer: Layer::Affordability,
    };
    assert_eq!(rt; fault.values(), (28, values));
    let refused = AccountFault::from(fault);
    assert_eq!(rt; refused.values(), (28, Some(values)));
    let record = JournalFault::from((40, refused));
    assert_eq!(rt; record.values(), (28, 40, Some(values)));
    let without = JournalFault::from((40, AccountFault::NoRoom));
    assert_eq!(rt; without.values(), (29, 40, None));
}

// 30 × 200,000 therms at 2,000,000 are 12 × 10^12.
#[test]
fn a_month_at_the_highest_rate(rt: HostRuntime) {
    let mut account = Account::new(DEAR.on(SMALL));
    accepts(&rt, &mut account, OPEN);
    post(&rt, &mut account, 1..31, even(0, 0, 200_000));
    overruns(
        &rt,
        &mut account,
        closing(0),
        0,
        Item::Affordability,
        Layer::Affordability,
    );
    assert_eq!(rt; Item::Affordability.number(), 7);
    assert_eq!(rt; Layer::Affordability.number(), 3);
}

// 5,000,000 therms at 2,000,000 are just 10^13, and one therm more is too many.
#[test]
fn the_limit_itself_is_lawful(rt: HostRuntime) {
    let mut account = Account::new(DEAR.on(SMALL));
    accepts(&rt, &mut account, OPEN);
    post_month(&rt, &mut account, 0, 31, 200_000);
    accepts(&rt, &mut account, closing(0));
    assert_eq!(rt;
        account.line(3).ok().map(|line| line.money.amount),
        Some(10_000_000_000_000)
    );
    let day = even(0, 26, 1);
    overruns(
        &rt,
        &mut account,
        correction(day),
        0,
        Item::Affordability,
        Layer::Affordability,
    );
    accepts(&rt, &mut account, correction(even(0, 26, 0)));
    assert_eq!(rt; account.line_count(), 3);
}

// Daily balancing, 30 × 200,000 × 2,000,000 of a critical month with nothing nominated, is too much
// at the class, and so is affordability at its rider.
#[test]
fn the_lowest_item_comes_first(rt: HostRuntime) {
    let mut account = Account::new(DEAR.on(SMALL));
    accepts(&rt, &mut account, OPEN);
    let critical = Day {
        numbers: DayNumbers {
            kind: 3,
            nomination: 0,
            variance_rate: 2_000_000,
            ..even(0, 0, 200_000).numbers
        },
        ..even(0, 0, 200_000)
    };
    post(&rt, &mut account, 1..31, critical);
    overruns(
        &rt,
        &mut account,
        closing(0),
        0,
        Item::DailyBalancing,
        Layer::Class,
    );
}

// The interim rider at 1,000 per mille asks as much as items 1, 2 and 7 together. Those are past
// 10^13 where the month has 5,000,000 therms: first in both interim months, then in December alone,
// and once the account is settled again in November, where at the opening's increase of 0 nothing
// is.
#[test]
fn the_lowest_month_comes_first(rt: HostRuntime) {
    let mut account = Account::new(Interim.on(DEAR.on(SMALL)));
    accepts(&rt, &mut account, opening(0, 1));
    post_month(&rt, &mut account, 0, 31, 200_000);
    post_month(&rt, &mut account, 1, 32, 200_000);
    accepts(&rt, &mut account, closing(0));
    accepts(&rt, &mut account, closing(1));
    overruns(
        &rt,
        &mut account,
        settling(1_000),
        0,
        Item::Interim,
        Layer::Interim,
    );
    accepts(&rt, &mut account, correction(even(0, 1, 0)));
    overruns(
        &rt,
        &mut account,
        settling(1_000),
        1,
        Item::Interim,
        Layer::Interim,
    );
    accepts(&rt, &mut account, correction(even(1, 1, 0)));
    accepts(&rt, &mut account, settling(1_000));
    overruns(
        &rt,
        &mut account,
        correction(even(0, 1, 200_000)),
        0,
        Item::Interim,
        Layer::Interim,
    );
}

const FRANCHISE: Franchise = Franchise {
    share: PerMille { share: 503 },
};

// By hand: of 4,900,000 therms items 1, 2 and 7 are s = 9,860,878,450,000 together, and item 10 is
// at most 503 per mille of 2 s, 9,920,043,720,700. Of 4,990,000 therms s is 10,041,996,340,000: at
// the opening's 990 per mille item 9 is 9,941,576,376,600, and item 10, 503 per mille of 1.99 s, is
// past 10^13; at the final 1,000 item 9 already is.
#[test]
fn the_openings_increase_comes_first(rt: HostRuntime) {
    let mut account = Account::new(FRANCHISE.on(Interim.on(DEAR.on(SMALL))));
    accepts(&rt, &mut account, opening(990, 0));
    post(&rt, &mut account, 1..25, even(0, 0, 200_000));
    post(&rt, &mut account, 25..26, even(0, 0, 100_000));
    post(&rt, &mut account, 26..31, QUIET);
    accepts(&rt, &mut account, closing(0));
    accepts(&rt, &mut account, settling(1_000));
    let day = even(0, 25, 190_000);
    overruns(
        &rt,
        &mut account,
        correction(day),
        0,
        Item::Franchise,
        Layer::Franchise,
    );
    accepts(&rt, &mut account, correction(even(0, 25, 100_000)));
}

// By hand: of 25 days with 200,000 unauthorized therms each, and one with a single one, all cost
// 2,000,000 a therm and are past 10^13 together. Where December 1 is the year's first unauthorized
// day it costs 300,000 less a therm.
#[test]
fn a_correction_is_refused_for_another_month(rt: HostRuntime) {
    let mut account = Account::new(SMALL);
    let curtailed = Day {
        numbers: DayNumbers {
            curtailed: 1,
            after_notice: 200_000,
            supply_cost: 1_400_000,
            ..even(1, 0, 200_000).numbers
        },
        ..even(1, 0, 200_000)
    };
    let last = Day {
        numbers: DayNumbers {
            after_notice: 1,
            ..curtailed.numbers
        },
        ..curtailed
    };
    accepts(&rt, &mut account, OPEN);
    post(&rt, &mut account, 1..31, QUIET);
    post(&rt, &mut account, 1..26, curtailed);
    post(&rt, &mut account, 26..27, last);
    post(&rt, &mut account, 27..32, even(1, 0, 0));
    accepts(&rt, &mut account, closing(0));
    accepts(&rt, &mut account, closing(1));
    let earlier = Day {
        month: 0,
        day: 30,
        ..last
    };
    overruns(
        &rt,
        &mut account,
        correction(earlier),
        1,
        Item::UnauthorizedUse,
        Layer::Class,
    );
    let day = Day {
        numbers: DayNumbers {
            curtailed: 0,
            ..earlier.numbers
        },
        ..earlier
    };
    accepts(&rt, &mut account, correction(day));
}
