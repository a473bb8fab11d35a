//! What is printed of the statements of all months.
ghost use Rattle.std.specs.Prelude.{◌≡◌, ◌≤◌, ◌++◌, IfOk, OnOk, string_bytes, vec_items};
ghost use Rattle.std.specs.Option.{option_map};
ghost use Rattle.ledger.specs.declared.lines.TheConstants.{WHOLE_YEAR};
ghost use Rattle.report.specs.Named.{IsNamed};
ghost use Rattle.report.specs.Statements.{PrintsMonths, PrintsPlayedMonths, months_text};
ghost use Rattle.report.specs.Statements.{titled_text};

use crate::named::named;
use crate::playing::play;
use crate::printing::{too_long, write_refusals};
use account::Account;
use gas::Schedule;
use ledger::WHOLE_YEAR;
use std::alloc::Global;
use std::fmt;

// A row with a month, and its printed form.
fn write_titled<S: Schedule>(
    text: &mut String,
    account: &Account<S>,
    month: u8,
) -> Result<(), fmt::Error>
    requires { month ≤ WHOLE_YEAR }
    ensures { OnOk result (string_bytes text.new ≡
        string_bytes text.old ++ titled_text account.now.state.lines month) }
{
    writeln!(text, "month {month}")?;
    let statement = account.statement(month).unwrap();
    write!(text, "{}", statement.text())?;
    Ok(())
}

// All months that a line can have.
fn write_months<S: Schedule>(text: &mut String, account: &Account<S>) -> Result<(), fmt::Error>
    ensures { OnOk result (string_bytes text.new ≡
        string_bytes text.old ++ months_text account.now.state.lines) }
{
    for month in 0..WHOLE_YEAR + 1 {
        write_titled(text, account, month)?;
    }
    Ok(())
}

// What was refused of a journal, and all months of the account that it made.
fn played_months(alloc: Global, journal: &[u8]) -> Result<String, fmt::Error>
    ensures { IfOk result (λ text. PrintsPlayedMonths journal.now (string_bytes text)) }
{
    let (account, refusals) = play(alloc, journal)?;
    let mut text = String::new(alloc);
    write_refusals(&mut text, &refusals)?;
    write_months(&mut text, &account)?;
    Ok(text)
}

// That, or one row for an input that was too long to be a journal.
fn months(alloc: Global, journal: Option<Vec<u8>>) -> Result<String, fmt::Error>
    ensures { IfOk result (λ text.
        PrintsMonths (option_map vec_items journal) (string_bytes text)) }
{
    let Some(bytes) = journal else {
        return too_long(alloc);
    };
    played_months(alloc, &bytes)
}

/// All that `statements` prints of a journal in a file of this name, or of a file that was too long
/// to be one (`docs/STATEMENTS.md`).
pub fn months_output(
    alloc: Global,
    name: &str,
    journal: Option<Vec<u8>>,
) -> Result<String, fmt::Error>
    ensures { IfOk result (λ text.
        IsNamed name.now (PrintsMonths (option_map vec_items journal)) (string_bytes text)) }
{
    let printed = months(alloc, journal)?;
    named(alloc, name, &printed)
}
