//! The worked November of docs/LEDGER.md on the code, by calls and by records, and a correction
//! behind it. The figures are that page's.
use crate::fixtures::{
    IDLE, QUIET, SMALL, Written, answers, closing, ends_with, even, post, posting,
};
use account::Account;
use gas::{ClosingNumbers, DayNumbers, PerMille, Schedule};
use journal::{Day, Record};
use ledger::AccountFault;
use riders::{Franchise, Interim, Rider};
use std::test::Fail;

/// The franchise of the worked November.
pub const FRANCHISE: Franchise = Franchise {
    share: PerMille { share: 50 },
};

/// Its lines in order.
pub const LINES: [Written; 11] = [
    (0, 1, 0, 15_550_000),
    (0, 2, 0, 37_263_000),
    (0, 9, 0, 7_235_381),
    (0, 10, 0, 3_002_419),
    (0, 2, 0, -124_210),
    (0, 4, 0, 65_700),
    (0, 5, 10, -310_000),
    (0, 9, 0, -17_017),
    (0, 10, 0, -19_276),
    (12, 11, 0, -2_046_960),
    (12, 12, 0, -40_939),
];

// A normal day with nomination, receipts and reading of 100.
const FULL: DayNumbers = DayNumbers {
    kind: 0,
    curtailed: 0,
    nomination: 100,
    receipts: 100,
    reading: 100,
    after_notice: 0,
    supply_cost: 0,
    variance_rate: 0,
};

const RATES: ClosingNumbers = ClosingNumbers {
    index: 30_000,
    interruptible: 1_000,
    firm: 1_000,
};

#[test]
fn by_calls(rt: HostRuntime) -> Result<(), Fail> {
    let mut account = Account::new(FRANCHISE.on(Interim.on(SMALL)));
    account.open(0, 137, 0, 0)?;
    for day in 1..31 {
        account.post(0, day, FULL)?;
        assert_eq!(rt; answers(&account), (0, 0, 0));
    }
    account.close(0, RATES)?;
    assert_eq!(rt; answers(&account), (4, 63_050_800, 0));
    account.correct(
        0,
        30,
        DayNumbers {
            reading: 90,
            ..FULL
        },
    )?;
    assert_eq!(rt; answers(&account), (9, 62_645_997, 0));
    account.settle(100, 20)?;
    assert_eq!(rt; answers(&account), (11, 60_558_098, 0));
    ends_with(&rt, &account, &LINES);
    Ok(())
}

/// Its records beside the posts and the closing.
pub const OPENING: Record = Record::Open {
    leap: 0,
    increase: 137,
    first: 0,
    last: 0,
};

/// Its correction of the last day.
pub const CORRECTION: Record = Record::Correct {
    day: Day {
        day: 30,
        numbers: DayNumbers {
            nomination: 100,
            receipts: 100,
            reading: 90,
            ..IDLE
        },
        ..QUIET
    },
};

/// Its settlement.
pub const SETTLING: Record = Record::Settle {
    final_increase: 100,
    interest: 20,
};

// That November by records, on a new account.
fn enter<S: Schedule>(account: &mut Account<S>) -> Result<(), AccountFault> {
    account.enter(&OPENING)?;
    for day in 1..31 {
        account.enter(&posting(even(0, day, 100)))?;
    }
    account.enter(&closing(0))?;
    account.enter(&CORRECTION)?;
    account.enter(&SETTLING)
}

#[test]
fn by_records(rt: HostRuntime) -> Result<(), Fail> {
    let mut account = Account::new(FRANCHISE.on(Interim.on(SMALL)));
    enter(&mut account)?;
    assert_eq!(rt; answers(&account), (11, 60_558_098, 0));
    ends_with(&rt, &account, &LINES);
    Ok(())
}

/// The correction of the day before to a reading of 80.
pub const SECOND: Record = Record::Correct {
    day: Day {
        day: 29,
        numbers: DayNumbers {
            reading: 80,
            ..FULL
        },
        ..QUIET
    },
};

/// What is written where day 29 is read at 80, too. By hand: of 2,970 therms item 2 is 36,890,370;
/// item 4 is 30 × 6,570, and item 5 −30 × 31,000. At 137 item 9 is 7,184,331 and item 10 2,944,590,
/// at 100 they are 5,244,037 and 2,847,575. So the refund is 61,836,391 − 59,799,082 = 2,037,309,
/// and the interest 40,746.
pub const CORRECTED: [Written; 7] = [
    (0, 2, 0, -248_420),
    (0, 4, 0, 131_400),
    (0, 5, 20, -620_000),
    (0, 9, 0, -34_033),
    (0, 10, 0, -38_553),
    (12, 11, 0, 9_651),
    (12, 12, 0, 193),
];

#[test]
fn a_correction_moves_refund_and_interest(rt: HostRuntime) -> Result<(), Fail> {
    let mut account = Account::new(FRANCHISE.on(Interim.on(SMALL)));
    enter(&mut account)?;
    account.enter(&SECOND)?;
    assert_eq!(rt; answers(&account), (18, 59_758_336, 0));
    ends_with(&rt, &account, &CORRECTED);
    Ok(())
}

// With December the one interim month and no franchise rider. By hand, of 31 days at 100 therms:
// item 2 is 38,505,100, and item 9 137 per mille of 54,055,100, which at 100 per mille is
// 5,405,510. The refund is 2,000,039. November has no item 9.
const DECEMBER: [Written; 7] = [
    (0, 1, 0, 15_550_000),
    (0, 2, 0, 37_263_000),
    (1, 1, 0, 15_550_000),
    (1, 2, 0, 38_505_100),
    (1, 9, 0, 7_405_549),
    (12, 11, 0, -2_000_039),
    (12, 12, 0, -40_001),
];

#[test]
fn an_increase_is_of_the_interim_months_alone(rt: HostRuntime) -> Result<(), Fail> {
    let mut account = Account::new(Interim.on(SMALL));
    account.open(0, 137, 1, 1)?;
    post(&rt, &mut account, 1..31, even(0, 0, 100));
    post(&rt, &mut account, 1..32, even(1, 0, 100));
    account.close(0, RATES)?;
    assert_eq!(rt; account.settle(100, 20), Err(AccountFault::InterimOpen));
    account.close(1, RATES)?;
    account.settle(100, 20)?;
    assert_eq!(rt; account.line_count(), 7);
    ends_with(&rt, &account, &DECEMBER);
    Ok(())
}

// Nothing is charged where the final increase is the higher one. A settled account goes on: with a
// December of no interim month, a payment, and a correction after which there is still no refund.
#[test]
fn a_higher_final_increase_costs_nothing(rt: HostRuntime) -> Result<(), Fail> {
    let mut account = Account::new(Interim.on(SMALL));
    account.open(0, 137, 0, 0)?;
    post(&rt, &mut account, 1..31, even(0, 0, 100));
    account.close(0, RATES)?;
    account.settle(138, 20)?;
    assert_eq!(rt; answers(&account), (3, 60_048_381, 0));
    post(&rt, &mut account, 1..32, even(1, 0, 100));
    account.close(1, RATES)?;
    account.pay(3_000_000)?;
    account.correct(
        1,
        1,
        DayNumbers {
            supply_cost: 1,
            ..FULL
        },
    )?;
    assert_eq!(rt; account.line_count(), 6);
    ends_with(
        &rt,
        &account,
        &[
            (1, 1, 0, 15_550_000),
            (1, 2, 0, 38_505_100),
            (12, 13, 0, -3_000_000),
        ],
    );
    Ok(())
}
