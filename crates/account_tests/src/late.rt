//! Late charges: what is owed at its limits, rounding and the least charge, payments and refunds in
//! what is owed, refusals in their order, and what the lines add up to behind them.
use crate::fixtures::{
    DEAR, OPEN, QUIET, SMALL, Small, accepts, answers, closing, ends_with, even, pay, post, written,
};
use crate::november::{CORRECTED, CORRECTION, FRANCHISE, LINES, OPENING, SECOND, SETTLING};
use account::Account;
use gas::Schedule;
use journal::Record;
use ledger::MOST_LINES;
use riders::{Interim, Rider};
use std::ops::Range;
use std::process::Abort;
use std::test::Fail;

// What the one line of an idle month comes to.
const BASIC: i64 = 15_550_000;

// The charge that is made, or the number of the refusal. It is the last line; all else that is
// answered stays.
fn charge<S: Schedule>(
    rt: &impl Abort,
    account: &mut Account<S>,
    number: usize,
) -> Result<i64, u8> {
    let before = answers(account);
    if let Err(fault) = account.charge_late(number) {
        assert_eq!(rt; answers(account), before, "{number}");
        return Err(fault.number());
    }
    let (count, total, open) = answers(account);
    assert_eq!(rt; count.wrapping_sub(1), before.0, "{number}");
    let (month, item, therms, money) = written(account, count)?;
    assert_eq!(rt; (month, item, therms), (12, 14, 0), "{number}");
    let others = (before.0, total.wrapping_sub(money), open);
    assert_eq!(rt; others, before, "{number}");
    Ok(money)
}

// Late charges up to some lines, one after another, and what comes of each.
fn charges<S: Schedule>(
    rt: &impl Abort,
    account: &mut Account<S>,
    expected: &[(usize, Result<i64, u8>)],
) {
    for (number, answer) in expected {
        assert_eq!(rt; charge(rt, account, *number), *answer, "{number}");
    }
}

// Posts some days on which nothing flowed, and closes their month.
fn close_idle<S: Schedule>(rt: &impl Abort, account: &mut Account<S>, month: u8, days: Range<u8>) {
    post(rt, account, days, even(month, 0, 0));
    accepts(rt, account, closing(month));
}

// An account with one line, of an idle November.
fn idle_november(rt: &impl Abort) -> Account<Small> {
    let mut account = Account::new(SMALL);
    accepts(rt, &mut account, OPEN);
    close_idle(rt, &mut account, 0, 1..31);
    assert_eq!(rt; answers(&account), (1, BASIC, 0));
    account
}

fn paying(amount: u64) -> Record {
    Record::Pay { amount }
}

// What is owed up to the first line, by what is paid of it, and the charge. Just half a cent is
// 151.5 and 154.5 cents; 100.5 is the first half beyond the least charge. 150.49995 cents are 150,
// and not 151 by way of 150,500 millicents.
const OWED: [(i64, u64, Result<i64, u8>); 13] = [
    (-9_999_984_450_000, 10_000_000_000_000, Err(31)),
    (-1, 15_550_001, Err(31)),
    (0, 15_550_000, Err(31)),
    (1_000_000, 14_550_000, Err(31)),
    (1_000_001, 14_549_999, Ok(100_000)),
    (6_699_999, 8_850_001, Ok(100_000)),
    (6_700_000, 8_850_000, Ok(101_000)),
    (10_033_330, 5_516_670, Ok(150_000)),
    (10_099_999, 5_450_001, Ok(151_000)),
    (10_100_000, 5_450_000, Ok(152_000)),
    (10_299_999, 5_250_001, Ok(154_000)),
    (10_300_000, 5_250_000, Ok(155_000)),
    (15_549_999, 1, Ok(233_000)),
];

#[test]
fn of_what_is_owed(rt: HostRuntime) {
    for (owed, paid, answer) in OWED {
        let mut account = idle_november(&rt);
        accepts(&rt, &mut account, paying(paid));
        assert_eq!(rt; account.total().amount, owed);
        assert_eq!(rt; charge(&rt, &mut account, 1), answer, "{owed}");
    }
}

// Late charges up to the last line, each of which is owed in the next one, until more than
// 6 × 10^14 millicents are. A payment behind the line takes off what is too much.
#[test]
fn of_the_most_that_can_be_owed(rt: HostRuntime) {
    let mut account = Account::new(DEAR.on(SMALL));
    accepts(&rt, &mut account, OPEN);
    post(&rt, &mut account, 1..26, even(0, 0, 200_000));
    post(&rt, &mut account, 26..31, QUIET);
    accepts(&rt, &mut account, closing(0));
    assert_eq!(rt; answers(&account), (3, 10_062_120_550_000, 0));
    assert_eq!(rt; charge(&rt, &mut account, 3), Ok(150_931_808_000));
    let most = 600_000_000_000_000;
    for _ in 0..MOST_LINES {
        let count = account.line_count();
        let over = account.total().amount.wrapping_sub(most);
        if over > 0 {
            assert_eq!(rt; charge(&rt, &mut account, count), Err(31));
            accepts(&rt, &mut account, paying((over - 1) as u64));
            assert_eq!(rt; charge(&rt, &mut account, count), Err(31));
            accepts(&rt, &mut account, paying(1));
            assert_eq!(rt; charge(&rt, &mut account, count), Ok(9_000_000_000_000));
            return;
        }
        assert!(rt; charge(&rt, &mut account, count).is_ok());
    }
    assert!(rt; false);
}

// Line 1 is November's, 2 and 3 are payments, 4 is December's, and 5 a payment. Each payment counts
// once, before the line or behind it; a late charge counts where it stands among the lines that
// were due. By hand: 11,000,000 are owed up to lines 1 and 2, 26,550,000 up to 4 and 5, 26,715,000
// and 26,880,000 with the late charges in lines 6 and 7, and 28,480,000 with all up to 11.
#[test]
fn of_payments_and_late_charges(rt: HostRuntime) {
    let mut account = idle_november(&rt);
    accepts(&rt, &mut account, paying(1_000_000));
    accepts(&rt, &mut account, paying(550_000));
    close_idle(&rt, &mut account, 1, 1..32);
    accepts(&rt, &mut account, paying(3_000_000));
    let expected = [
        (1, Ok(165_000)),
        (2, Ok(165_000)),
        (4, Ok(398_000)),
        (4, Err(32)),
        (1, Err(32)),
        (5, Ok(398_000)),
        (6, Ok(401_000)),
        (7, Ok(403_000)),
        (7, Err(32)),
        (12, Err(30)),
        (11, Ok(427_000)),
        (0, Err(30)),
    ];
    charges(&rt, &mut account, &expected);
}

// Posts and closes the worked November.
fn close_november<S: Schedule>(rt: &impl Abort, account: &mut Account<S>) {
    accepts(rt, account, OPENING);
    post(rt, account, 1..31, even(0, 0, 100));
    accepts(rt, account, closing(0));
}

// Late charges behind the worked November, and behind a payment if it is not 0.
fn behind_november(rt: &impl Abort, paid: u64, expected: &[(usize, Result<i64, u8>)]) {
    let mut account = Account::new(FRANCHISE.on(Interim.on(SMALL)));
    close_november(rt, &mut account);
    accepts(rt, &mut account, CORRECTION);
    accepts(rt, &mut account, SETTLING);
    if paid != 0 {
        accepts(rt, &mut account, paying(paid));
    }
    charges(rt, &mut account, expected);
}

// A refund takes off what is owed where it stands among the lines that were due, and not where it
// stands behind them: 62,645,997, 60,599,037 and 60,558,098 millicents are owed.
#[test]
fn of_a_refund(rt: HostRuntime) {
    let expected = [(9, Ok(940_000)), (10, Ok(909_000)), (11, Ok(908_000))];
    behind_november(&rt, 0, &expected);
}

// The late charges behind November of docs/LEDGER.md.
#[test]
fn of_the_worked_payments(rt: HostRuntime) {
    let expected = [
        (0, Err(30)),
        (4, Ok(196_000)),
        (4, Err(32)),
        (3, Err(32)),
        (11, Ok(158_000)),
        (13, Ok(161_000)),
        (16, Err(30)),
    ];
    behind_november(&rt, 50_000_000, &expected);
    behind_november(&rt, 55_000_000, &[(11, Ok(100_000))]);
    behind_november(&rt, 60_000_000, &[(11, Err(31))]);
}

// Each refusal with every later fault that can go with it.
#[test]
fn refusals_in_their_order(rt: HostRuntime) {
    let mut account = Account::new(SMALL);
    charges(&rt, &mut account, &[(0, Err(20)), (1, Err(20))]);
    accepts(&rt, &mut account, OPEN);
    charges(&rt, &mut account, &[(0, Err(30)), (1, Err(30))]);
    close_idle(&rt, &mut account, 0, 1..31);
    accepts(&rt, &mut account, paying(1));
    charges(
        &rt,
        &mut account,
        &[(2, Ok(233_000)), (0, Err(30)), (4, Err(30))],
    );
    charges(&rt, &mut account, &[(1, Err(32)), (2, Err(32))]);
    accepts(&rt, &mut account, paying(15_000_000));
    charges(
        &rt,
        &mut account,
        &[(1, Err(31)), (2, Err(31)), (3, Err(31)), (5, Err(30))],
    );
    pay(&rt, &mut account, MOST_LINES - 4);
    charges(
        &rt,
        &mut account,
        &[(0, Err(29)), (1, Err(29)), (1_025, Err(29))],
    );
}

// The last line that there is room for.
#[test]
fn a_charge_just_fits(rt: HostRuntime) {
    let mut account = idle_november(&rt);
    pay(&rt, &mut account, MOST_LINES - 2);
    charges(
        &rt,
        &mut account,
        &[(1, Ok(233_000)), (2, Err(29)), (1, Err(29))],
    );
    assert_eq!(rt; account.line_count(), MOST_LINES);
}

// The worked November and what comes behind it, with late charges in between. By hand: 63,050,800,
// then 63,591,997, then 62,458,098 are owed. Each month, the refund and the interest come to what
// they come to without.
#[test]
fn of_a_year_that_goes_on(rt: HostRuntime) -> Result<(), Fail> {
    let mut account = Account::new(FRANCHISE.on(Interim.on(SMALL)));
    close_november(&rt, &mut account);
    charges(&rt, &mut account, &[(4, Ok(946_000))]);
    accepts(&rt, &mut account, CORRECTION);
    ends_with(&rt, &account, &LINES[4..9]);
    charges(&rt, &mut account, &[(10, Ok(954_000))]);
    accepts(&rt, &mut account, SETTLING);
    ends_with(&rt, &account, &LINES[9..11]);
    charges(&rt, &mut account, &[(13, Ok(937_000))]);
    accepts(&rt, &mut account, SECOND);
    ends_with(&rt, &account, &CORRECTED);
    post(&rt, &mut account, 1..32, even(1, 0, 100));
    assert_eq!(rt; answers(&account), (21, 62_595_336, 0));
    accepts(&rt, &mut account, closing(1));
    let months = [
        (
            0,
            "1 15550\n2 36890\n4 197\n5 -930\n9 7184\n10 2945\ntotal 61836391\n",
        ),
        (1, "1 15550\n2 38505\n10 2703\ntotal 56757855\n"),
        (12, "11 -2037\n12 -41\n14 2837\ntotal 758945\n"),
    ];
    for (month, printed) in months {
        let statement = account.statement(month)?;
        assert_eq!(rt; statement.text().as_str(), printed);
    }
    Ok(())
}
