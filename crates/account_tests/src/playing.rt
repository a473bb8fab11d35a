//! A whole journal of bytes, played into an account.
use crate::fixtures::{SMALL, answers, closing, ends_with, even, posting};
use crate::november::{CORRECTION, FRANCHISE, LINES, OPENING, SETTLING};
use account::{Account, JournalFault};
use gas::Schedule;
use journal::{Located, Reader, Record, write};
use ledger::AccountFault;
use riders::{Interim, Rider};
use std::alloc::Global;
use std::process::Abort;
use std::test::Fail;

// Plays a journal. What is refused has its number, its offset and the number of the refusal.
fn plays<S: Schedule>(
    rt: &impl Abort,
    alloc: Global,
    account: &mut Account<S>,
    journal: &[u8],
    refused: &[(usize, usize, u8)],
) -> Result<(), Fail> {
    let refusals = account.play(alloc, journal)?;
    assert_eq!(rt; refusals.len(), refused.len());
    for (refusal, wanted) in refusals.iter().zip(refused) {
        let fault = refusal.fault;
        assert_eq!(rt; (refusal.number, fault.offset(), fault.number()), *wanted);
    }
    Ok(())
}

#[test]
fn an_empty_journal(rt: HostRuntime) -> Result<(), Fail> {
    let mut account = Account::new(SMALL);
    plays(&rt, rt.alloc(), &mut account, b"", &[])?;
    assert_eq!(rt; answers(&account), (0, 0, 0));
    Ok(())
}

// Payments of 5, of which the first comes before the opening and the last is cut off after two
// bytes; a second opening; and a settlement before November is closed.
#[test]
fn refused_records_are_passed_over(rt: HostRuntime) -> Result<(), Fail> {
    let mut account = Account::new(SMALL);
    let journal =
        b"\x05\x05\x00\x00\x00\x00\x00\x00\x00\x01\x00\x89\x00\x00\x00\x01\x00\x89\x00\x00\x00\x05\x05\x00\x00\x00\x00\x00\x00\x00\x06\x64\x00\x14\x00\x05\x05";
    plays(
        &rt,
        rt.alloc(),
        &mut account,
        journal,
        &[(1, 0, 20), (3, 15, 21), (5, 30, 27), (6, 35, 2)],
    )?;
    assert_eq!(rt; answers(&account), (1, -5, 0));
    Ok(())
}

// An opening, a payment of 5, kind 7, and a payment that is not read.
#[test]
fn playing_stops_at_an_unknown_kind(rt: HostRuntime) -> Result<(), Fail> {
    let mut account = Account::new(SMALL);
    let journal =
        b"\x01\x00\x89\x00\x00\x00\x05\x05\x00\x00\x00\x00\x00\x00\x00\x07\x05\x05\x00\x00\x00\x00\x00\x00\x00";
    plays(&rt, rt.alloc(), &mut account, journal, &[(3, 15, 1)])?;
    assert_eq!(rt; answers(&account), (1, -5, 0));
    // another journal goes on where that one stopped, and has numbers and offsets of its own
    plays(
        &rt,
        rt.alloc(),
        &mut account,
        b"\x05\x07\x00\x00\x00\x00\x00\x00\x00\x01\x00\x89\x00\x00\x00",
        &[(2, 9, 21)],
    )?;
    assert_eq!(rt; answers(&account), (2, -12, 0));
    Ok(())
}

// Puts a record behind a journal.
fn put(journal: &mut Vec<u8>, record: Record) -> Result<(), Fail> {
    let mut buffer = [0; 29];
    let length = write(&record, &mut buffer)?;
    let bytes = buffer.get(0..length).ok_or("longer than its buffer")?;
    journal.extend_from_slice(bytes)?;
    Ok(())
}

// The journal of the worked November, with a correction of a day that is not posted yet and a
// second closing.
fn november(alloc: Global) -> Result<Vec<u8>, Fail> {
    let mut journal = Vec::new(alloc);
    put(&mut journal, OPENING)?;
    put(&mut journal, CORRECTION)?;
    for day in 1..31 {
        let day = even(0, day, 100);
        put(&mut journal, posting(day))?;
    }
    put(&mut journal, closing(0))?;
    put(&mut journal, closing(0))?;
    put(&mut journal, CORRECTION)?;
    put(&mut journal, SETTLING)?;
    Ok(journal)
}

// Enters the records of a journal one by one, at most 40 of them, and passes over the refused ones.
fn enter<S: Schedule>(account: &mut Account<S>, journal: &[u8]) {
    let mut reader = Reader::new(journal);
    for _ in 0..40 {
        if let Ok(Some(located)) = reader.next() {
            let _ = account.enter_located(&located);
        }
    }
}

#[test]
fn a_refusal_has_the_place_that_came_with_the_record(rt: HostRuntime) {
    let mut account = Account::new(SMALL);
    let located = Located {
        offset: 6,
        record: OPENING,
    };
    let refused = JournalFault::Refused {
        offset: 6,
        fault: AccountFault::OpenedAlready,
    };
    assert_eq!(rt; account.enter_located(&located), Ok(()));
    assert_eq!(rt; account.enter_located(&located), Err(refused));
    assert_eq!(rt; (refused.number(), refused.offset()), (21, 6));
}

// The offsets are 6 for the opening, and 6 + 31 × 29 + 14 for all up to the first closing.
#[test]
fn the_same_as_record_by_record(rt: HostRuntime) -> Result<(), Fail> {
    let journal = november(rt.alloc())?;
    let mut played = Account::new(FRANCHISE.on(Interim.on(SMALL)));
    plays(
        &rt,
        rt.alloc(),
        &mut played,
        &journal,
        &[(2, 6, 23), (34, 919, 24)],
    )?;
    let mut entered = Account::new(FRANCHISE.on(Interim.on(SMALL)));
    enter(&mut entered, &journal);
    assert_eq!(rt; answers(&played), (11, 60_558_098, 0));
    assert_eq!(rt; answers(&entered), (11, 60_558_098, 0));
    ends_with(&rt, &played, &LINES);
    ends_with(&rt, &entered, &LINES);
    assert_eq!(rt; played.peak_day(0), entered.peak_day(0));
    Ok(())
}
