//! What is printed of a journal and of late charges that are made behind it.
ghost use Rattle.std.specs.Prelude.{◌≡◌, ◌++◌, IfOk, OnOk, string_bytes, vec_items};
ghost use Rattle.std.specs.Option.{option_map};
ghost use Rattle.ledger.specs.Calls.{late_charge};
ghost use Rattle.ledger.specs.Runs.{refusal_by, state_after};
ghost use Rattle.report.specs.Late.{AnswersLate, after_charges, charge_text, charges_text};

use crate::answer::Answer;
use crate::printing::{played, too_long};
use account::Account;
use gas::Schedule;
use std::alloc::Global;
use std::fmt;

// A late charge, with its row if it is refused.
fn write_charge<S: Schedule>(
    text: &mut String,
    account: &mut Account<S>,
    number: usize,
) -> Result<(), fmt::Error>
    ensures row { OnOk result (string_bytes text.new ≡
        string_bytes text.old ++ charge_text number
        (refusal_by (S.tariff account.old.schedule) (late_charge number) account.old.state)) }
    ensures after { OnOk result (account.new.state ≡
        state_after (S.tariff account.old.schedule) (late_charge number) account.old.state) }
    ensures schedule { account.new.schedule ≡ account.old.schedule }
{
    if let Err(fault) = account.charge_late(number) {
        writeln!(text, "refused late {number} {}", fault.number())?;
    }
    Ok(())
}

/// Makes late charges up to some line numbers in their order, with a row for each that is refused
/// (`docs/ACCOUNT.md`).
pub fn write_charges<S: Schedule>(
    text: &mut String,
    account: &mut Account<S>,
    numbers: &[usize],
) -> Result<(), fmt::Error>
    ensures rows { OnOk result (string_bytes text.new ≡
        string_bytes text.old ++
        charges_text (S.tariff account.old.schedule) numbers.now account.old.state) }
    ensures after { OnOk result (account.new.state ≡
        after_charges (S.tariff account.old.schedule) numbers.now account.old.state) }
{
    for number in numbers {
        write_charge(text, account, *number)?;
    }
    Ok(())
}

/// All that `gasaccount late` answers for the line numbers up to which late charges are to be made,
/// in their order, and for a journal, or none where the input was too long to be one
/// (`docs/ACCOUNT.md`).
pub fn late_answer(
    alloc: Global,
    numbers: &[usize],
    journal: Option<Vec<u8>>,
) -> Result<Answer, fmt::Error>
    ensures { IfOk result (AnswersLate numbers.now (option_map vec_items journal)) }
{
    let (output, status) = match journal {
        None => (too_long(alloc)?, 1),
        Some(bytes) => (played(alloc, numbers, &bytes)?, 0),
    };
    Ok(Answer {
        output,
        errors: String::new(alloc),
        status,
    })
}
