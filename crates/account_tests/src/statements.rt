//! Statements of months: their lines, step by step, and their printed form.
use crate::fixtures::{OPEN, SMALL, accepts, closing, even, post};
use crate::november::FRANCHISE;
use account::Account;
use gas::{Item, Millicents, Schedule};
use journal::Record;
use ledger::{AccountFault, Cents, Heading, Line, NumberedLine, SignedTherms, Statement};
use riders::{Interim, Rider};
use std::process::Abort;
use std::test::Fail;

// The days of each month of a common year.
const DAYS: [u8; 12] = [30, 31, 31, 28, 31, 30, 31, 30, 31, 31, 30, 31];

// The printed form of a month in which 100 therms flowed on each of 30 days. By hand: items 2 and 9
// are 37,263,000 and 7,235,381, item 10 is 3,002,419.
const MONTH_OF_30: &str = "1 15550\n2 37263\n9 7235\n10 3002\ntotal 63050800\n";

// Of 31 days: items 2, 9 and 10 are 38,505,100, 7,405,549 and 3,073,032.
const MONTH_OF_31: &str = "1 15550\n2 38505\n9 7406\n10 3073\ntotal 64533681\n";

// Of 28 days: they are 34,778,800, 6,895,046 and 2,861,192.
const MONTH_OF_28: &str = "1 15550\n2 34779\n9 6895\n10 2861\ntotal 60085038\n";

// Of the year as a whole: at 100 per mille a month of 30 days costs 2,051,785 less, one of 31 days
// 2,100,040 and that of 28 days 1,955,274. So the refund is 24,862,694, and the interest 497,254. A
// payment of 2,500 is two cents and a half.
const YEAR: &str = "11 -24863\n12 -497\n13 -3\ntotal -25362448\n";

fn month_of(days: u8) -> &'static str {
    match days {
        28 => MONTH_OF_28,
        30 => MONTH_OF_30,
        _ => MONTH_OF_31,
    }
}

// A settled year of 100 therms a day, with a payment.
fn enter_year<S: Schedule>(rt: &impl Abort, account: &mut Account<S>) -> Result<(), AccountFault> {
    account.open(0, 137, 0, 11)?;
    for (month, days) in DAYS.iter().enumerate() {
        let month = month as u8;
        post(rt, account, 1..days + 1, even(month, 0, 100));
        account.enter(&closing(month))?;
    }
    account.settle(100, 20)?;
    account.pay(2_500)
}

// Each line of a month among all lines, looked up by its number.
fn follows_lines<S: Schedule>(rt: &impl Abort, account: &Account<S>, month: u8) {
    let Ok(mut statement) = account.statement(month) else {
        assert!(rt; false, "month {month}");
        return;
    };
    for index in 0..account.line_count() {
        let number = index + 1;
        if let Ok(line) = account.line(number) {
            if line.heading.month() == month {
                assert_eq!(rt; statement.next(), Some(NumberedLine { number, line }));
            }
        }
    }
    assert_eq!(rt; statement.next(), None);
    assert_eq!(rt; statement.next(), None);
}

#[test]
fn of_each_month_of_a_settled_year(rt: HostRuntime) -> Result<(), Fail> {
    let mut account = Account::new(FRANCHISE.on(Interim.on(SMALL)));
    enter_year(&rt, &mut account)?;
    for (month, days) in DAYS.iter().enumerate() {
        let month = month as u8;
        assert_eq!(rt; account.statement(month)?.text().as_str(), month_of(*days));
        follows_lines(&rt, &account, month);
    }
    assert_eq!(rt; account.statement(12)?.text().as_str(), YEAR);
    follows_lines(&rt, &account, 12);
    Ok(())
}

// A statement has still to give the lines of these numbers.
fn still_gives(rt: &impl Abort, statement: Statement, numbers: &[usize]) {
    let mut steps = statement;
    for number in numbers {
        assert_eq!(rt; steps.next().map(|line| line.number), Some(*number));
    }
    assert_eq!(rt; steps.next(), None);
}

#[test]
fn three_at_once_at_different_lines(rt: HostRuntime) -> Result<(), Fail> {
    let mut account = Account::new(FRANCHISE.on(Interim.on(SMALL)));
    enter_year(&rt, &mut account)?;
    let mut first = account.statement(1)?;
    let mut second = first;
    let mut third = account.statement(12)?;
    assert_eq!(rt; first.next().map(|line| line.number), Some(5));
    assert_eq!(rt; first.next().map(|line| line.number), Some(6));
    assert_eq!(rt; second.next().map(|line| line.number), Some(5));
    assert_eq!(rt; third.next().map(|line| line.number), Some(49));
    assert_eq!(rt; account.line_count(), 51);
    still_gives(&rt, first, &[7, 8]);
    still_gives(&rt, second, &[6, 7, 8]);
    still_gives(&rt, third, &[50, 51]);
    assert_eq!(rt; first.text().as_str(), MONTH_OF_31);
    assert_eq!(rt; second.text().as_str(), MONTH_OF_31);
    assert_eq!(rt; third.text().as_str(), YEAR);
    Ok(())
}

// Refused with 3, before the opening too, and with nothing else.
#[test]
fn of_months_above_12(rt: HostRuntime) -> Result<(), Fail> {
    let mut account = Account::new(SMALL);
    for _ in 0..2 {
        for month in 0..=255 {
            match account.statement(month) {
                Ok(statement) => {
                    assert!(rt; month <= 12, "month {month}");
                    assert_eq!(rt; statement.text().as_str(), "total 0\n");
                }
                Err(fault) => {
                    assert!(rt; month > 12, "month {month}");
                    assert_eq!(rt; fault.number(), 3);
                }
            }
        }
        let _ = account.open(0, 0, 0, 0);
    }
    Ok(())
}

// A line of February.
fn line(item: Item, therms: i64, money: i64) -> Line {
    Line {
        heading: Heading::Priced { month: 3, item },
        therms: SignedTherms { count: therms },
        money: Millicents { amount: money },
    }
}

// The lines of an item are added up before they are rounded, and the total is not rounded.
#[test]
fn of_halves_of_a_cent(rt: HostRuntime) -> Result<(), Fail> {
    let lines = [
        line(Item::Basic, 0, 500),
        line(Item::Franchise, 0, 2_500),
        line(Item::Delivery, 0, -500),
        line(Item::CostOfGas, 0, 499),
        line(Item::DailyBalancing, 0, -499),
        line(Item::MonthlyBalancing, 7, 0),
        line(Item::UnauthorizedUse, 0, 300),
        line(Item::UnauthorizedUse, 0, 200),
        line(Item::Affordability, 0, -1_400),
        line(Item::Affordability, 0, -1_100),
        line(Item::Weather, 0, 1_000),
        line(Item::Weather, 0, -1_000),
        line(Item::Interim, 0, 1_499),
        line(Item::Interim, 0, -2_999),
    ];
    let february = Statement::new(&lines, 3)?;
    assert_eq!(rt;
        february.text().as_str(),
        "1 1\n2 -1\n3 0\n4 0\n5 0\n6 1\n7 -3\n8 0\n9 -2\n10 3\ntotal -1000\n"
    );
    assert_eq!(rt; Statement::new(&lines, 2)?.text().as_str(), "total 0\n");
    Ok(())
}

// No sum of lines runs over, whatever they hold.
#[test]
fn of_the_greatest_lines(rt: HostRuntime) -> Result<(), Fail> {
    let lines = [
        line(Item::Basic, 0, i64::MAX),
        line(Item::Basic, 0, i64::MAX),
        line(Item::Delivery, 0, i64::MIN),
        line(Item::Delivery, 0, i64::MIN),
    ];
    assert_eq!(rt;
        Statement::new(&lines, 3)?.text().as_str(),
        "1 18446744073709552\n2 -18446744073709552\ntotal -2\n"
    );
    Ok(())
}

#[test]
fn cents_of_the_greatest_sums(rt: HostRuntime) {
    let most = 170_141_183_460_469_231_731_687_303_715_884_106;
    assert_eq!(rt; Cents::nearest(i128::MAX), Cents { count: most });
    assert_eq!(rt; Cents::nearest(i128::MIN), Cents { count: -most });
    assert_eq!(rt; Cents::nearest(0), Cents::default());
}

// A buffer of just the text's length is long enough, and what stands behind the text stays.
#[test]
fn written_at_the_start_of_a_buffer(rt: HostRuntime) -> Result<(), Fail> {
    let mut account = Account::new(SMALL);
    accepts(&rt, &mut account, OPEN);
    accepts(&rt, &mut account, Record::Pay { amount: 1_500 });
    let mut statement = account.statement(12)?;
    statement.next();
    let text = b"13 -2\ntotal -1500\n";
    let mut buffer = [b'x'; 24];
    for length in 0..text.len() {
        let answer = statement.write(&mut buffer[..length]);
        assert_eq!(rt; answer.map_err(|fault| fault.number()), Err(10));
        assert_eq!(rt; buffer, [b'x'; 24]);
    }
    assert_eq!(rt; statement.write(&mut buffer), Ok(text.len()));
    assert_eq!(rt; &buffer[..text.len()], text.as_slice());
    assert_eq!(rt; &buffer[text.len()..], b"xxxxxx".as_slice());
    let mut exact = [0; 18];
    assert_eq!(rt; statement.write(&mut exact), Ok(18));
    assert_eq!(rt; &exact, text);
    Ok(())
}
