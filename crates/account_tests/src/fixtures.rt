//! What the tests share: schedules, days, and calls that are made and looked at.
use account::Account;
use classes::{Class, SmallDualFuel};
use gas::{ClosingNumbers, DayNumbers, Rate, Schedule, Therms};
use journal::{Day, Record};
use ledger::AccountFault;
use pipelines::Northern;
use riders::Affordability;
use std::ops::Range;
use std::process::Abort;

/// Small dual fuel on Northern.
pub type Small = Class<SmallDualFuel, Northern>;

/// Small dual fuel on Northern, at 36,500 therms a year.
pub const SMALL: Small = Class {
    terms: SmallDualFuel {
        annual: Therms { count: 36_500 },
    },
    pipeline: Northern,
};

/// At the highest rate: a month of 5,000,000 therms costs just 10^13.
pub const DEAR: Affordability = Affordability {
    rate: Rate { price: 2_000_000 },
};

/// In a common year with no interim increase, with November the one interim month.
pub const OPEN: Record = Record::Open {
    leap: 0,
    increase: 0,
    first: 0,
    last: 0,
};

/// A normal day on which nothing flowed.
pub const IDLE: DayNumbers = DayNumbers {
    kind: 0,
    curtailed: 0,
    nomination: 0,
    receipts: 0,
    reading: 0,
    after_notice: 0,
    supply_cost: 0,
    variance_rate: 0,
};

/// It is the first of November.
pub const QUIET: Day = Day {
    month: 0,
    day: 1,
    numbers: IDLE,
};

/// A day that is in balance: so many therms were nominated, received and used.
pub fn even(month: u8, day: u8, therms: u32) -> Day {
    Day {
        month,
        day,
        numbers: DayNumbers {
            nomination: therms,
            receipts: therms,
            reading: therms,
            ..IDLE
        },
    }
}

/// The posting of a day.
pub fn posting(day: Day) -> Record {
    Record::Post { day }
}

/// The correction of a day.
pub fn correction(day: Day) -> Record {
    Record::Correct { day }
}

/// The closing of a month at the rates of the worked November.
pub fn closing(month: u8) -> Record {
    Record::Close {
        month,
        numbers: ClosingNumbers {
            index: 30_000,
            interruptible: 1_000,
            firm: 1_000,
        },
    }
}

/// The call that a record is, made by its name.
pub fn call<S: Schedule>(account: &mut Account<S>, record: Record) -> Result<(), AccountFault> {
    match record {
        Record::Open {
            leap,
            increase,
            first,
            last,
        } => account.open(leap, increase, first, last),
        Record::Post { day } => account.post(day.month, day.day, day.numbers),
        Record::Correct { day } => account.correct(day.month, day.day, day.numbers),
        Record::Close { month, numbers } => account.close(month, numbers),
        Record::Pay { amount } => account.pay(amount),
        Record::Settle {
            final_increase,
            interest,
        } => account.settle(final_increase, interest),
    }
}

/// How many lines there are, what they add up to, and the open therms.
pub fn answers<S: Schedule>(account: &Account<S>) -> (usize, i64, i64) {
    (
        account.line_count(),
        account.total().amount,
        account.open_therms().count,
    )
}

/// A line as it stands in docs/LEDGER.md: its month, its item, therms and millicents.
pub type Written = (u8, u8, i64, i64);

/// The line of a number, or the number of the refusal.
pub fn written<S: Schedule>(account: &Account<S>, number: usize) -> Result<Written, u8> {
    let line = account.line(number).map_err(AccountFault::number)?;
    let heading = line.heading;
    Ok((
        heading.month(),
        heading.item(),
        line.therms.count,
        line.money.amount,
    ))
}

/// The last lines of the account are these.
pub fn ends_with<S: Schedule>(rt: &impl Abort, account: &Account<S>, lines: &[Written]) {
    let count = account.line_count();
    assert!(rt; lines.len() <= count);
    for (index, line) in lines.iter().enumerate() {
        assert_eq!(rt;
            written(account, count - lines.len() + index + 1),
            Ok(*line)
        );
    }
}

/// The call that a record is, is accepted.
pub fn accepts<S: Schedule>(rt: &impl Abort, account: &mut Account<S>, record: Record) {
    assert_eq!(rt; call(account, record), Ok(()), "{record:?}");
}

/// By its name and as a record, the call is refused with that number, and the account answers as
/// before.
pub fn refuses<S: Schedule>(rt: &impl Abort, account: &mut Account<S>, record: Record, number: u8) {
    let before = answers(account);
    let named = call(account, record);
    let entered = account.enter(&record);
    assert_eq!(rt;
        named.map_err(AccountFault::number),
        Err(number),
        "{record:?}"
    );
    assert_eq!(rt; entered, named, "{record:?}");
    assert_eq!(rt; answers(account), before, "{record:?}");
}

/// Posts some days of a month, each with the same numbers.
pub fn post<S: Schedule>(rt: &impl Abort, account: &mut Account<S>, days: Range<u8>, like: Day) {
    for day in days {
        accepts(rt, account, posting(Day { day, ..like }));
    }
}

/// Takes in so many payments of one millicent, each of which is a line.
pub fn pay<S: Schedule>(rt: &impl Abort, account: &mut Account<S>, count: usize) {
    for _ in 0..count {
        accepts(rt, account, Record::Pay { amount: 1 });
    }
}
