//! What is printed of one month's statement, as it is asked for by a word.
ghost use Rattle.std.specs.Prelude.{◌≡◌, ◌≤◌, ◌++◌, IfOk, OnOk, SomeIff, string_bytes, vec_items};
ghost use Rattle.std.specs.Option.{option_map};
ghost use Rattle.ledger.specs.declared.lines.TheConstants.{WHOLE_YEAR};
ghost use Rattle.ledger.specs.Statements.{still_to_give};
ghost use Rattle.report.specs.Rows.{lines_text};
ghost use Rattle.report.specs.Statements.{AnswersPlayed, AnswersStatement, IsRefused, NamesMonth};
ghost use Rattle.report.specs.Statements.{month_refusal, number_of};

use crate::answer::Answer;
use crate::playing::play;
use crate::printing::{too_long, write_refusals};
use crate::rows::LineRow;
use gas::InputFault;
use ledger::{Statement, WHOLE_YEAR};
use std::alloc::Global;
use std::fmt;

// A refusal, with its reason for standard error.
fn refused(alloc: Global, reason: String) -> Answer
    ensures { IsRefused (string_bytes reason) result }
{
    Answer {
        output: String::new(alloc),
        errors: reason,
        status: 1,
    }
}

/// The month that a word names: a whole number in decimal digits, from 0 to 12. Another word names
/// none (`docs/STATEMENTS.md`).
pub fn asked_month(word: &str) -> Option<u8>
    ensures { SomeIff result (NamesMonth word.now) (number_of word.now) }
{
    match word.parse::<u8>() {
        Ok(month) if month <= WHOLE_YEAR => Some(month),
        _ => None,
    }
}

// The row that refuses a word which names no month.
fn month_refusal(alloc: Global, word: &str) -> Result<String, fmt::Error>
    ensures { IfOk result (λ text. string_bytes text ≡ month_refusal word.now) }
{
    let number = InputFault::Month.number();
    let mut text = String::new(alloc);
    writeln!(
        text,
        "refused {number}: a statement is of a month from 0 to 12, not of {word}"
    )?;
    Ok(text)
}

// A row for each line that a statement still has to give.
fn write_month(text: &mut String, statement: Statement) -> Result<(), fmt::Error>
    ensures { OnOk result (string_bytes text.new ≡
        string_bytes text.old ++ lines_text (still_to_give statement.entry)) }
{
    let mut steps = statement;
    while let Some(line) = steps.next() {
        writeln!(text, "{}", LineRow(line))?;
    }
    Ok(())
}

// The month of the account that a journal makes, and what was refused of it.
fn month_answer(
    alloc: Global,
    month: u8,
    with_lines: bool,
    journal: &[u8],
) -> Result<Answer, fmt::Error>
    requires { month ≤ WHOLE_YEAR }
    ensures { IfOk result (AnswersPlayed month with_lines journal.now) }
{
    let (account, refusals) = play(alloc, journal)?;
    let statement = account.statement(month).unwrap();
    let mut output = String::new(alloc);
    if with_lines {
        write_month(&mut output, statement)?;
    }
    write!(output, "{}", statement.text())?;
    let mut errors = String::new(alloc);
    write_refusals(&mut errors, &refusals)?;
    Ok(Answer {
        output,
        errors,
        status: 0,
    })
}

/// All that `gasaccount statement` answers for the word of a month, with the month's lines or
/// without, and for a journal, or none where the input was too long to be one. A word that names no
/// month is refused whatever the input, so that it need not be read (`docs/STATEMENTS.md`).
pub fn statement_answer(
    alloc: Global,
    word: &str,
    with_lines: bool,
    journal: Option<Vec<u8>>,
) -> Result<Answer, fmt::Error>
    ensures { IfOk result
        (AnswersStatement word.now with_lines (option_map vec_items journal)) }
{
    let Some(month) = asked_month(word) else {
        return Ok(refused(alloc, month_refusal(alloc, word)?));
    };
    let Some(bytes) = journal else {
        return Ok(refused(alloc, too_long(alloc)?));
    };
    month_answer(alloc, month, with_lines, &bytes)
}
