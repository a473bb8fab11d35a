//! A record of a journal does what its call does.
use crate::fixtures::{SMALL, answers, call, closing, correction, even, posting, written};
use account::Account;
use gas::{DayNumbers, Schedule};
use journal::{Day, Record};
use riders::{Interim, Rider};
use std::process::Abort;

// Both accounts answer all questions alike. They have fewer than 16 lines.
fn alike<S: Schedule>(rt: &impl Abort, named: &Account<S>, entered: &Account<S>) {
    assert_eq!(rt; answers(named), answers(entered));
    for number in 0..16 {
        assert_eq!(rt; written(named, number), written(entered, number));
    }
    for month in 0..12 {
        assert_eq!(rt; named.peak_day(month), entered.peak_day(month));
    }
}

// One account is called by name and the other is given the record.
fn both<S: Schedule>(
    rt: &impl Abort,
    named: &mut Account<S>,
    entered: &mut Account<S>,
    record: Record,
) {
    let answer = call(named, record);
    assert_eq!(rt; entered.enter(&record), answer);
    alike(rt, named, entered);
}

// Calls of each kind, accepted and refused: before the opening, before the closing, behind it, and
// behind the settlement.
#[test]
fn a_year_of_calls(rt: HostRuntime) {
    let mut named = Account::new(Interim.on(SMALL));
    let mut entered = Account::new(Interim.on(SMALL));
    let opening = Record::Open {
        leap: 1,
        increase: 137,
        first: 0,
        last: 0,
    };
    let corrected = correction(Day {
        numbers: DayNumbers {
            reading: 90,
            ..even(0, 30, 100).numbers
        },
        ..even(0, 30, 100)
    });
    let settling = Record::Settle {
        final_increase: 100,
        interest: 20,
    };
    let payment = Record::Pay { amount: 63_050_800 };
    let before = [corrected, closing(0), payment, settling, opening, opening];
    for record in before {
        both(&rt, &mut named, &mut entered, record);
    }
    for day in 1..32 {
        let day = even(0, day, 100);
        both(&rt, &mut named, &mut entered, posting(day));
    }
    let after = [
        settling,
        closing(0),
        closing(0),
        corrected,
        payment,
        Record::Pay { amount: 0 },
        settling,
        settling,
        posting(even(3, 29, 7)),
    ];
    for record in after {
        both(&rt, &mut named, &mut entered, record);
    }
    assert_eq!(rt; entered.line_count(), 10);
}
