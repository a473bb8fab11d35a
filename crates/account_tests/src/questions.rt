//! What an account answers to questions.
use crate::fixtures::{
    OPEN, SMALL, accepts, answers, closing, correction, ends_with, even, post, posting, written,
};
use account::Account;
use gas::{DayNumbers, Schedule};
use journal::{Day, Record};
use ledger::AccountFault;

// The peak day of a month, or the number of the refusal.
fn peak<S: Schedule>(account: &Account<S>, month: u8) -> Result<Option<u8>, u8> {
    account.peak_day(month).map_err(AccountFault::number)
}

// 20, and then 3.
#[test]
fn of_a_new_account(rt: HostRuntime) {
    let mut account = Account::new(SMALL);
    assert_eq!(rt; answers(&account), (0, 0, 0));
    for number in [0, 1, usize::MAX] {
        assert_eq!(rt; written(&account, number), Err(30));
    }
    assert_eq!(rt; peak(&account, 0), Err(20));
    assert_eq!(rt; peak(&account, 12), Err(20));
    accepts(&rt, &mut account, OPEN);
    assert_eq!(rt; peak(&account, 255), Err(3));
    assert_eq!(rt; peak(&account, 12), Err(3));
    assert_eq!(rt; peak(&account, 11), Ok(None));
}

#[test]
fn of_a_line(rt: HostRuntime) {
    let mut account = Account::new(SMALL);
    accepts(&rt, &mut account, OPEN);
    accepts(&rt, &mut account, Record::Pay { amount: 5 });
    accepts(&rt, &mut account, Record::Pay { amount: 7 });
    assert_eq!(rt; written(&account, 1), Ok((12, 13, 0, -5)));
    assert_eq!(rt; written(&account, 2), Ok((12, 13, 0, -7)));
    for number in [0, 3, usize::MAX] {
        assert_eq!(rt; written(&account, number), Err(30));
    }
    assert_eq!(rt; answers(&account), (2, -12, 0));
}

#[test]
fn of_a_peak_day(rt: HostRuntime) {
    let mut account = Account::new(SMALL);
    accepts(&rt, &mut account, OPEN);
    accepts(&rt, &mut account, posting(even(1, 31, 90)));
    assert_eq!(rt; peak(&account, 0), Ok(None));
    for (day, reading, answer) in [
        (12, 0, 12),
        (30, 50, 30),
        (7, 80, 7),
        (1, 79, 7),
        (29, 81, 29),
    ] {
        accepts(&rt, &mut account, posting(even(0, day, reading)));
        assert_eq!(rt; peak(&account, 0), Ok(Some(answer)));
    }
    accepts(&rt, &mut account, correction(even(0, 29, 10)));
    assert_eq!(rt; peak(&account, 0), Ok(Some(7)));
    assert_eq!(rt; peak(&account, 1), Ok(Some(31)));
}

// It is the reading that counts, and not the receipts or the nomination. Of equal ones either may
// be answered.
#[test]
fn of_equal_peaks(rt: HostRuntime) {
    let mut account = Account::new(SMALL);
    accepts(&rt, &mut account, OPEN);
    let received = Day {
        numbers: DayNumbers {
            nomination: 100,
            receipts: 100,
            ..even(0, 3, 10).numbers
        },
        ..even(0, 3, 10)
    };
    accepts(&rt, &mut account, posting(received));
    accepts(&rt, &mut account, posting(even(0, 4, 20)));
    accepts(&rt, &mut account, posting(even(0, 9, 20)));
    let answer = peak(&account, 0);
    assert!(rt; answer == Ok(Some(4)) || answer == Ok(Some(9)));
}

// A day of the month with receipts of 7 and a reading of 10.
#[test]
fn of_the_open_therms(rt: HostRuntime) {
    let mut account = Account::new(SMALL);
    accepts(&rt, &mut account, OPEN);
    let short = Day {
        numbers: DayNumbers {
            receipts: 7,
            ..even(0, 0, 10).numbers
        },
        ..even(0, 0, 10)
    };
    post(&rt, &mut account, 1..31, short);
    assert_eq!(rt; answers(&account), (0, 0, -90));
    let over = Day {
        numbers: DayNumbers {
            receipts: 5,
            ..even(1, 1, 1).numbers
        },
        ..even(1, 1, 1)
    };
    accepts(&rt, &mut account, posting(over));
    assert_eq!(rt; answers(&account), (0, 0, -86));
    accepts(&rt, &mut account, closing(0));
    // by hand: 90 therms are bought at 120 percent of 30,000 and at 1,000
    ends_with(&rt, &account, &[(0, 5, -90, 3_330_000)]);
    assert_eq!(rt; account.open_therms().count, 4);
    accepts(&rt, &mut account, correction(even(1, 1, 200_000)));
    assert_eq!(rt; account.open_therms().count, 0);
}
