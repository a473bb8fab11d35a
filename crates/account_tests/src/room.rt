//! The room for 1,024 lines. A call just fills it, or is refused with 29 for one line too many.
use crate::fixtures::{
    OPEN, SMALL, accepts, closing, correction, even, pay, post, posting, refuses,
};
use account::Account;
use gas::{DayNumbers, Schedule};
use journal::{Day, Record};
use riders::{Interim, Rider};
use std::process::Abort;

// Opens the account at 137 per mille and posts November, with two therms more received than used.
fn post_november<S: Schedule>(rt: &impl Abort, account: &mut Account<S>) {
    accepts(
        rt,
        account,
        Record::Open {
            leap: 0,
            increase: 137,
            first: 0,
            last: 0,
        },
    );
    post(rt, account, 1..30, even(0, 0, 10));
    let day = Day {
        numbers: DayNumbers {
            receipts: 12,
            ..even(0, 30, 10).numbers
        },
        ..even(0, 30, 10)
    };
    accepts(rt, account, posting(day));
}

#[test]
fn payments(rt: HostRuntime) {
    let mut account = Account::new(SMALL);
    accepts(&rt, &mut account, OPEN);
    pay(&rt, &mut account, 1_024);
    refuses(&rt, &mut account, Record::Pay { amount: 1 }, 29);
    assert_eq!(rt; account.line_count(), 1_024);
    // what writes no line needs no room
    accepts(&rt, &mut account, posting(even(0, 1, 10)));
    accepts(&rt, &mut account, correction(even(0, 1, 20)));
}

// Items 1, 2 and 5 are due.
#[test]
fn a_closing_just_fits(rt: HostRuntime) {
    let mut account = Account::new(SMALL);
    post_november(&rt, &mut account);
    pay(&rt, &mut account, 1_021);
    accepts(&rt, &mut account, closing(0));
    assert_eq!(rt; account.line_count(), 1_024);
    refuses(&rt, &mut account, Record::Pay { amount: 1 }, 29);
}

#[test]
fn a_closing_does_not_fit(rt: HostRuntime) {
    let mut account = Account::new(SMALL);
    post_november(&rt, &mut account);
    pay(&rt, &mut account, 1_022);
    refuses(&rt, &mut account, closing(0), 29);
    // November is still open, and December not the next
    refuses(&rt, &mut account, closing(1), 24);
    accepts(&rt, &mut account, correction(even(0, 30, 10)));
    accepts(&rt, &mut account, closing(0));
    assert_eq!(rt; account.line_count(), 1_024);
}

// Item 2 is due where the day stays in balance, and item 5 too where it does not.
#[test]
fn corrections(rt: HostRuntime) {
    let mut account = Account::new(SMALL);
    post_november(&rt, &mut account);
    accepts(&rt, &mut account, closing(0));
    accepts(&rt, &mut account, correction(even(0, 7, 20)));
    pay(&rt, &mut account, 1_019);
    assert_eq!(rt; account.line_count(), 1_023);
    let day = Day {
        numbers: DayNumbers {
            receipts: 29,
            ..even(0, 15, 30).numbers
        },
        ..even(0, 15, 30)
    };
    refuses(&rt, &mut account, correction(day), 29);
    assert_eq!(rt; account.peak_day(0), Ok(Some(7)));
    accepts(&rt, &mut account, correction(even(0, 15, 15)));
    assert_eq!(rt; account.line_count(), 1_024);
}

#[test]
fn corrections_of_a_full_account(rt: HostRuntime) {
    let mut account = Account::new(SMALL);
    post_november(&rt, &mut account);
    accepts(&rt, &mut account, closing(0));
    accepts(&rt, &mut account, correction(even(0, 7, 20)));
    pay(&rt, &mut account, 1_020);
    refuses(&rt, &mut account, correction(even(0, 15, 30)), 29);
    assert_eq!(rt; account.peak_day(0), Ok(Some(7)));
    // no line is due for another rate of a normal day, and none where a day takes over from another
    let day = Day {
        numbers: DayNumbers {
            variance_rate: 2_000_000,
            ..even(0, 15, 10).numbers
        },
        ..even(0, 15, 10)
    };
    accepts(&rt, &mut account, correction(day));
    assert_eq!(rt; account.line_count(), 1_024);
}

fn settling(final_increase: u16) -> Record {
    Record::Settle {
        final_increase,
        interest: 20,
    }
}

// Closes that November, which writes items 1, 2, 5 and 9. A refund and its interest are two lines
// more.
fn close_november<S: Schedule>(rt: &impl Abort, account: &mut Account<S>) {
    post_november(rt, account);
    accepts(rt, account, closing(0));
}

#[test]
fn a_settlement_just_fits(rt: HostRuntime) {
    let mut account = Account::new(Interim.on(SMALL));
    close_november(&rt, &mut account);
    pay(&rt, &mut account, 1_018);
    accepts(&rt, &mut account, settling(100));
    assert_eq!(rt; account.line_count(), 1_024);
}

#[test]
fn a_settlement_does_not_fit(rt: HostRuntime) {
    let mut account = Account::new(Interim.on(SMALL));
    close_november(&rt, &mut account);
    pay(&rt, &mut account, 1_019);
    refuses(&rt, &mut account, settling(100), 29);
    // it is not settled yet, and without a refund it can be
    accepts(&rt, &mut account, settling(137));
    assert_eq!(rt; account.line_count(), 1_023);
    refuses(&rt, &mut account, settling(137), 26);
}
