//! What is answered to the words of a month, and to late charges.
use crate::{asked_month, late_answer, statement_answer};
use std::alloc::{AllocError, Global};
use std::test::Fail;

// Which words name a month, and the row that refuses the others.
#[test]
fn of_words_for_a_month(rt: HostRuntime) -> Result<(), Fail> {
    let alloc = rt.alloc();
    for (word, month) in [("0", 0), ("12", 12), ("007", 7), ("+3", 3)] {
        assert_eq!(rt; asked_month(word), Some(month));
        let journal = Some(Vec::new(alloc));
        let answer = statement_answer(alloc, word, true, journal)?;
        assert_eq!(rt; answer.output.as_str(), "total 0\n");
        assert_eq!(rt; answer.errors.as_str(), "");
        assert_eq!(rt; answer.status, 0);
    }
    for word in [
        "13",
        "255",
        "256",
        "99999999999999999999",
        "x",
        "",
        "1.5",
        "-1",
        "1 ",
    ] {
        assert_eq!(rt; asked_month(word), None);
        let answer = statement_answer(alloc, word, false, Some(Vec::new(alloc)))?;
        assert_eq!(rt; answer.output.as_str(), "");
        let told = "refused 3: a statement is of a month from 0 to 12, not of";
        let row = format!(in alloc; "{told} {word}\n")?;
        assert_eq!(rt; answer.errors.as_str(), row.as_str());
        assert_eq!(rt; answer.status, 1);
    }
    Ok(())
}

// An input that is too long, and records that are refused.
#[test]
fn of_journals(rt: HostRuntime) -> Result<(), Fail> {
    let alloc = rt.alloc();
    let answer = statement_answer(alloc, "12", false, None)?;
    assert_eq!(rt; answer.output.as_str(), "");
    assert_eq!(rt; answer.errors.as_str(), "too long\n");
    assert_eq!(rt; answer.status, 1);
    let pay = [5, 100, 0, 0, 0, 0, 0, 0, 0, 7];
    let journal = Some(Vec::from_slice(alloc, &pay)?);
    let answer = statement_answer(alloc, "12", false, journal)?;
    assert_eq!(rt; answer.output.as_str(), "total 0\n");
    assert_eq!(rt; answer.errors.as_str(), "refused 1 20\nrefused 2 1\n");
    assert_eq!(rt; answer.status, 0);
    Ok(())
}

// Late charges that are all refused: where their rows stand.
#[test]
fn of_late_charges(rt: HostRuntime) -> Result<(), Fail> {
    let alloc = rt.alloc();
    let answer = late_answer(alloc, &[1, 2], None)?;
    assert_eq!(rt; answer.output.as_str(), "too long\n");
    assert_eq!(rt; answer.errors.as_str(), "");
    assert_eq!(rt; answer.status, 1);
    let journals: [(&[u8], &str); 3] = [
        (&[], "refused late 1 20\nrefused late 0 20\n"),
        (
            &[5, 100, 0, 0, 0, 0, 0, 0, 0, 7],
            "refused 1 20\nrefused 2 1\nrefused late 1 20\nrefused late 0 20\n",
        ),
        (
            &[1, 0, 0, 0, 0, 0],
            "refused late 1 30\nrefused late 0 30\n",
        ),
    ];
    for (journal, refused) in journals {
        let answer = late_answer(alloc, &[1, 0], Some(Vec::from_slice(alloc, journal)?))?;
        let output = format!(in alloc; "{refused}no month item therms millicents\nsum 0\n")?;
        assert_eq!(rt; answer.output.as_str(), output.as_str());
        assert_eq!(rt; answer.errors.as_str(), "");
        assert_eq!(rt; answer.status, 0);
    }
    Ok(())
}

// A post or a correction of a November day on which 100 therms were nominated and received.
fn push_day(journal: &mut Vec<u8>, kind: u8, day: u8, reading: u8) -> Result<(), AllocError> {
    journal.extend_from_slice(&[kind, 0, day, 0, 0])?;
    journal.extend_from_slice(&[100, 0, 0, 0, 100, 0, 0, 0, reading, 0, 0, 0])?;
    journal.extend_from_slice(&[0; 12])
}

// The worked November of docs/LEDGER.md, as bytes.
fn november(alloc: Global) -> Result<Vec<u8>, AllocError> {
    let mut journal = Vec::from_slice(alloc, &[1, 0, 137, 0, 0, 0])?;
    for day in 1..31 {
        push_day(&mut journal, 2, day, 100)?;
    }
    journal.extend_from_slice(&[4, 0, 48, 117, 0, 0, 232, 3, 0, 0, 232, 3, 0, 0])?;
    push_day(&mut journal, 3, 30, 90)?;
    journal.extend_from_slice(&[6, 100, 0, 20, 0])?;
    Ok(journal)
}

// What docs/ACCOUNT.md has of `gasaccount late 4 5 4` on it.
const NOVEMBER_CHARGED: &str = "\
refused late 4 32
no month item therms millicents
1 0 1 0 15550000
2 0 2 0 37263000
3 0 9 0 7235381
4 0 10 0 3002419
5 0 2 0 -124210
6 0 4 0 65700
7 0 5 10 -310000
8 0 9 0 -17017
9 0 10 0 -19276
10 12 11 0 -2046960
11 12 12 0 -40939
12 12 14 0 946000
13 12 14 0 944000
sum 62448098
";

#[test]
fn of_late_charges_in_november(rt: HostRuntime) -> Result<(), Fail> {
    let alloc = rt.alloc();
    let answer = late_answer(alloc, &[4, 5, 4], Some(november(alloc)?))?;
    assert_eq!(rt; answer.output.as_str(), NOVEMBER_CHARGED);
    assert_eq!(rt; answer.errors.as_str(), "");
    assert_eq!(rt; answer.status, 0);
    Ok(())
}
