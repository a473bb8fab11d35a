//! What each refusal says to a person.
use account::JournalFault;
use gas::{InputFault, Item, Layer, ScheduleFault, WriteFault, message};
use journal::ReadFault;
use ledger::AccountFault;
use std::test::Fail;

// The numbers that a refusal has.
const NUMBERS: [u8; 24] = [
    1, 2, 3, 4, 5, 6, 7, 8, 9, 10, 11, 20, 21, 22, 23, 24, 25, 26, 27, 28, 29, 30, 31, 32,
];

#[test]
fn each_number_has_a_message_and_no_other_has(rt: HostRuntime) -> Result<(), Fail> {
    for number in 0..=255 {
        let told = !message(number).is_empty();
        assert_eq!(rt; told, NUMBERS.contains(&number), "{number}");
    }
    Ok(())
}

// Each fault tells what its number tells.
#[test]
fn faults_tell_what_is_wrong_and_its_limit(rt: HostRuntime) -> Result<(), Fail> {
    let alloc = rt.alloc();
    let input = [
        (
            InputFault::Month,
            "a month is above 11 (12 in a statement), \
             or the first interim month is after the last",
        ),
        (
            InputFault::Day,
            "the day is 0, or the month does not have it",
        ),
        (InputFault::DayKind, "the kind of a day is above 3"),
        (InputFault::Mark, "a mark is neither 0 nor 1"),
        (
            InputFault::Quantity,
            "a quantity, a rate or a base level is outside its limits",
        ),
        (
            InputFault::Share,
            "a per mille is above 1000, or a percentage is above its limit",
        ),
        (
            InputFault::Payment,
            "the payment is 0, or above 10000000000000 millicents",
        ),
        (
            InputFault::GasYear,
            "the weather rider's gas year starts outside 2020 to 2026",
        ),
        (
            InputFault::DayCount,
            "the days are not just all of the month",
        ),
    ];
    for (fault, told) in input {
        assert_eq!(rt; format!(in alloc; "{fault}")?.as_str(), told);
        let account = AccountFault::from(fault);
        assert_eq!(rt; format!(in alloc; "{account}")?.as_str(), told);
    }
    let state = [
        (AccountFault::NotOpened, "the account is not opened"),
        (AccountFault::OpenedAlready, "the account is opened already"),
        (AccountFault::PostedAlready, "the day is posted already"),
        (AccountFault::NotPosted, "the day is not posted"),
        (
            AccountFault::NotEarliest,
            "the month is not the earliest that is open",
        ),
        (
            AccountFault::LacksDay,
            "the days are not just all of the month",
        ),
        (
            AccountFault::SettledAlready,
            "the account is settled already",
        ),
        (AccountFault::InterimOpen, "an interim month is open"),
        (
            AccountFault::NoRoom,
            "more lines are due than the account has room for",
        ),
        (AccountFault::NoLine, "no line has that number"),
        (
            AccountFault::NotChargeable,
            "what is owed is 1000000 millicents or less, or more than 600000000000000",
        ),
        (
            AccountFault::ChargedAlready,
            "a late charge was made up to that line or a later one already",
        ),
    ];
    for (fault, told) in state {
        assert_eq!(rt; format!(in alloc; "{fault}")?.as_str(), told);
    }
    let read = [
        (
            ReadFault::UnknownKind,
            "the kind of a journal record is not 1 to 6",
        ),
        (ReadFault::CutShort, "the journal ends inside a record"),
    ];
    for (fault, told) in read {
        assert_eq!(rt; format!(in alloc; "{fault}")?.as_str(), told);
    }
    let write = WriteFault::BufferTooShort;
    assert_eq!(rt;
        format!(in alloc; "{write}")?.as_str(),
        "the buffer is shorter than what is to be written"
    );
    Ok(())
}

// A price past its limit tells which, and a record's fault where it stands in the journal.
#[test]
fn faults_tell_their_values(rt: HostRuntime) -> Result<(), Fail> {
    let alloc = rt.alloc();
    let past = ScheduleFault::PastLimit {
        month: 2,
        item: Item::Affordability,
        layer: Layer::Affordability,
    };
    let told = "a price is further than 10000000000000 millicents from zero: \
                item 7 of month 2, at layer 3";
    assert_eq!(rt; format!(in alloc; "{past}")?.as_str(), told);
    let account = AccountFault::from(past);
    assert_eq!(rt; format!(in alloc; "{account}")?.as_str(), told);
    let refused = JournalFault::from((40, AccountFault::NotPosted));
    assert_eq!(rt;
        format!(in alloc; "{refused}")?.as_str(),
        "at byte 40: the day is not posted"
    );
    let unread = JournalFault::from((6, ReadFault::CutShort));
    assert_eq!(rt;
        format!(in alloc; "{unread}")?.as_str(),
        "at byte 6: the journal ends inside a record"
    );
    Ok(())
}
