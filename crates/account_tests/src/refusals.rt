//! The refusals of each call in their order. A call begins with every fault that can go together,
//! and loses the first of them at each step, until it is accepted.
use crate::fixtures::{
    DEAR, IDLE, OPEN, QUIET, SMALL, accepts, closing, correction, even, pay, post, posting, refuses,
};
use account::Account;
use gas::{ClosingNumbers, DayNumbers, Schedule};
use journal::{Day, Record};
use riders::{Interim, Rider};
use std::process::Abort;

// A day with every fault that its numbers can have.
const FAULTY: Day = Day {
    month: 12,
    day: 0,
    numbers: WRONG,
};

const WRONG: DayNumbers = DayNumbers {
    kind: 4,
    curtailed: 2,
    nomination: 200_001,
    ..IDLE
};

// That day with one fault less each time, and the number that it is refused with.
const FAULTY_DAYS: [(Day, u8); 5] = [
    (FAULTY, 3),
    (Day { month: 0, ..FAULTY }, 4),
    (
        Day {
            month: 0,
            day: 1,
            ..FAULTY
        },
        5,
    ),
    (
        Day {
            numbers: DayNumbers {
                curtailed: 2,
                nomination: 200_001,
                ..IDLE
            },
            ..QUIET
        },
        6,
    ),
    (
        Day {
            numbers: DayNumbers {
                nomination: 200_001,
                ..IDLE
            },
            ..QUIET
        },
        7,
    ),
];

// An opening with a first interim month, and otherwise right but for the leap mark and the
// increase.
fn opening(leap: u8, increase: u16, first: u8) -> Record {
    Record::Open {
        leap,
        increase,
        first,
        last: 11,
    }
}

fn rated(month: u8, index: u32) -> Record {
    Record::Close {
        month,
        numbers: ClosingNumbers {
            index,
            interruptible: 1_000,
            firm: 1_000,
        },
    }
}

fn settling(final_increase: u16) -> Record {
    Record::Settle {
        final_increase,
        interest: 20,
    }
}

// Posts a November of 5,000,000 therms, which is as much as a schedule with the dear rider can
// price.
fn post_november<S: Schedule>(rt: &impl Abort, account: &mut Account<S>) {
    post(rt, account, 1..26, even(0, 0, 200_000));
    post(rt, account, 26..31, QUIET);
}

// 21 excludes that the call is accepted in the end: what is opened stays so.
#[test]
fn an_opening(rt: HostRuntime) {
    let mut account = Account::new(SMALL);
    refuses(&rt, &mut account, opening(2, 1_001, 12), 3);
    refuses(&rt, &mut account, opening(2, 1_001, 0), 6);
    refuses(&rt, &mut account, opening(1, 1_001, 0), 8);
    accepts(&rt, &mut account, opening(1, 1_000, 0));
    refuses(&rt, &mut account, opening(2, 1_001, 12), 21);
    refuses(&rt, &mut account, opening(1, 1_000, 0), 21);
}

// 20 excludes 22, and so does 4: a day that is not there is not posted.
#[test]
fn a_post(rt: HostRuntime) {
    let mut account = Account::new(SMALL);
    refuses(&rt, &mut account, posting(FAULTY), 20);
    refuses(&rt, &mut account, posting(QUIET), 20);
    accepts(&rt, &mut account, OPEN);
    accepts(&rt, &mut account, posting(QUIET));
    for (day, number) in FAULTY_DAYS {
        refuses(&rt, &mut account, posting(day), number);
    }
    refuses(&rt, &mut account, posting(QUIET), 22);
    accepts(&rt, &mut account, posting(Day { day: 2, ..QUIET }));
}

// A day that is not posted is of an open month, and changes no line: so 23 excludes 28 and 29.
#[test]
fn a_correction(rt: HostRuntime) {
    let mut account = Account::new(DEAR.on(SMALL));
    refuses(&rt, &mut account, correction(FAULTY), 20);
    refuses(&rt, &mut account, correction(QUIET), 20);
    accepts(&rt, &mut account, OPEN);
    post_november(&rt, &mut account);
    accepts(&rt, &mut account, closing(0));
    pay(&rt, &mut account, 1_021);
    for (day, number) in FAULTY_DAYS {
        refuses(&rt, &mut account, correction(day), number);
    }
    refuses(&rt, &mut account, correction(even(1, 1, 1)), 23);
    // one therm too many, and two lines that there is no room for
    refuses(&rt, &mut account, correction(even(0, 26, 1)), 28);
    refuses(&rt, &mut account, correction(even(0, 1, 199_999)), 29);
    accepts(&rt, &mut account, correction(even(0, 1, 200_000)));
}

#[test]
fn a_closing(rt: HostRuntime) {
    let mut account = Account::new(DEAR.on(SMALL));
    refuses(&rt, &mut account, rated(12, 2_000_001), 20);
    refuses(&rt, &mut account, rated(0, 2_000_000), 20);
    accepts(&rt, &mut account, OPEN);
    post(&rt, &mut account, 1..30, even(0, 0, 200_000));
    pay(&rt, &mut account, 1_022);
    refuses(&rt, &mut account, rated(12, 2_000_001), 3);
    refuses(&rt, &mut account, rated(1, 2_000_001), 7);
    // December is not the earliest open month, and not complete either
    refuses(&rt, &mut account, rated(1, 2_000_000), 24);
    refuses(&rt, &mut account, rated(0, 2_000_000), 25);
    accepts(&rt, &mut account, posting(even(0, 30, 200_000)));
    refuses(&rt, &mut account, rated(0, 2_000_000), 28);
    for day in 1..31 {
        accepts(&rt, &mut account, correction(even(0, day, 100_000)));
    }
    refuses(&rt, &mut account, rated(0, 2_000_000), 29);
}

// The last step of the closing above, which can lose its fault in another account alone: no line is
// taken away.
#[test]
fn a_closing_with_room(rt: HostRuntime) {
    let mut account = Account::new(DEAR.on(SMALL));
    accepts(&rt, &mut account, OPEN);
    post(&rt, &mut account, 1..31, even(0, 0, 100_000));
    pay(&rt, &mut account, 1_021);
    accepts(&rt, &mut account, rated(0, 2_000_000));
}

#[test]
fn a_payment(rt: HostRuntime) {
    let mut account = Account::new(SMALL);
    refuses(&rt, &mut account, Record::Pay { amount: 0 }, 20);
    refuses(&rt, &mut account, Record::Pay { amount: 1 }, 20);
    accepts(&rt, &mut account, OPEN);
    pay(&rt, &mut account, 1_023);
    refuses(&rt, &mut account, Record::Pay { amount: 0 }, 9);
    accepts(&rt, &mut account, Record::Pay { amount: 1 });
    refuses(&rt, &mut account, Record::Pay { amount: 0 }, 9);
    refuses(&rt, &mut account, Record::Pay { amount: 1 }, 29);
}

// 26 excludes 27, since what is settled has no open interim month: it is tested behind the
// settlement.
#[test]
fn a_settlement(rt: HostRuntime) {
    let mut account = Account::new(Interim.on(DEAR.on(SMALL)));
    refuses(&rt, &mut account, settling(1_001), 20);
    refuses(&rt, &mut account, settling(1_000), 20);
    accepts(
        &rt,
        &mut account,
        Record::Open {
            leap: 0,
            increase: 500,
            first: 0,
            last: 0,
        },
    );
    post_november(&rt, &mut account);
    refuses(&rt, &mut account, settling(1_001), 8);
    refuses(&rt, &mut account, settling(1_000), 27);
    accepts(&rt, &mut account, closing(0));
    pay(&rt, &mut account, 1_020);
    // the interim item would be past its limit; a lower increase, by which it is not, makes a
    // refund, for which there is no room
    refuses(&rt, &mut account, settling(1_000), 28);
    refuses(&rt, &mut account, settling(499), 29);
    accepts(&rt, &mut account, settling(500));
    refuses(&rt, &mut account, settling(1_001), 8);
    refuses(&rt, &mut account, settling(1_000), 26);
}
