//! What `lines` prints of a journal.
ghost use Rattle.std.specs.Prelude.{◌≡◌, ◌++◌, OnOk, IfOk, codes, string_bytes, vec_items};
ghost use Rattle.std.specs.Option.{option_map};
ghost use Rattle.ledger.specs.Statements.{numbered};
ghost use Rattle.report.specs.Late.{PrintsCharged};
ghost use Rattle.report.specs.Outputs.{Prints};
ghost use Rattle.report.specs.Rows.{account_text, lines_text, refusals_text};

use crate::late::write_charges;
use crate::playing::play;
use crate::rows::{LineRow, RefusalRow};
use account::{Account, Refusal};
use gas::Schedule;
use ledger::NumberedLine;
use std::alloc::Global;
use std::fmt;

/// A row for each refusal, in order (`docs/ACCOUNT.md`).
pub fn write_refusals(text: &mut String, refusals: &[Refusal]) -> Result<(), fmt::Error>
    ensures { OnOk result (string_bytes text.new ≡
        string_bytes text.old ++ refusals_text refusals.now) }
{
    for refusal in refusals {
        writeln!(text, "{}", RefusalRow(*refusal))?;
    }
    Ok(())
}

// A row for each line of an account, in order. Each number up to the count has its line.
fn write_lines<S: Schedule>(text: &mut String, account: &Account<S>) -> Result<(), fmt::Error>
    ensures { OnOk result (string_bytes text.new ≡
        string_bytes text.old ++ lines_text (numbered 1 account.now.state.lines)) }
{
    for index in 0..account.line_count() {
        let number = index + 1;
        let line = account.line(number).unwrap();
        writeln!(text, "{}", LineRow(NumberedLine { number, line }))?;
    }
    Ok(())
}

// The header, a row for each line, and their sum.
fn write_account<S: Schedule>(text: &mut String, account: &Account<S>) -> Result<(), fmt::Error>
    ensures { OnOk result (string_bytes text.new ≡
        string_bytes text.old ++ account_text account.now.state.lines) }
{
    writeln!(text, "no month item therms millicents")?;
    write_lines(text, account)?;
    writeln!(text, "sum {}", account.total().amount)?;
    Ok(())
}

/// The one row of an input that is too long to be a journal (`docs/JOURNAL.md`).
pub fn too_long(alloc: Global) -> Result<String, fmt::Error>
    ensures { IfOk result (λ text. string_bytes text ≡ codes "too long\n") }
{
    let mut text = String::new(alloc);
    writeln!(text, "too long")?;
    Ok(text)
}

/// What was refused of a journal and of late charges that are made behind it, up to some line
/// numbers in their order, and the account after them (`docs/ACCOUNT.md`).
pub fn played(alloc: Global, numbers: &[usize], journal: &[u8]) -> Result<String, fmt::Error>
    ensures { IfOk result (λ text. PrintsCharged numbers.now journal.now (string_bytes text)) }
{
    let (mut account, refusals) = play(alloc, journal)?;
    let mut text = String::new(alloc);
    write_refusals(&mut text, &refusals)?;
    write_charges(&mut text, &mut account, numbers)?;
    write_account(&mut text, &account)?;
    Ok(text)
}

/// All that `lines` prints of a journal, or of an input that was too long to be one
/// (`docs/ACCOUNT.md`).
pub fn output(alloc: Global, journal: Option<Vec<u8>>) -> Result<String, fmt::Error>
    ensures { IfOk result (λ text. Prints (option_map vec_items journal) (string_bytes text)) }
{
    let Some(bytes) = journal else {
        return too_long(alloc);
    };
    played(alloc, &[], &bytes)
}
