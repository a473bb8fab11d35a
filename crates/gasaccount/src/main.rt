//! The command line of the gas account: plays a journal from standard input, and answers what the
//! words of the command line ask for.
#![tactic(auto)]

mod words;

use crate::words::gasaccount;
use clap::ArgMatches;
use journal::load;
use report::{Answer, asked_month, late_answer, statement_answer};
use std::alloc::Global;
use std::env;
use std::process::ExitCode;

// A month's statement. A word that names no month is refused without a journal.
fn statement(rt: &HostRuntime, matches: &ArgMatches) -> anyhow::Result<Answer> {
    let alloc = rt.alloc();
    let word = matches.get_str(words::MONTH).unwrap_or("");
    let journal = match asked_month(word) {
        Some(_) => load(alloc, rt.stdin())?,
        None => None,
    };
    let with_lines = matches.get_flag(words::LINES);
    Ok(statement_answer(alloc, word, with_lines, journal)?)
}

// Late charges behind the journal, up to each of the numbers in turn.
fn late(rt: &HostRuntime, matches: &ArgMatches) -> anyhow::Result<Answer> {
    let alloc = rt.alloc();
    let mut numbers = Vec::new(alloc);
    if let Some(asked) = matches.get_many::<usize>(words::NUMBERS) {
        for number in asked {
            numbers.push(number?)?;
        }
    }
    let journal = load(alloc, rt.stdin())?;
    Ok(late_answer(alloc, &numbers, journal)?)
}

fn main(rt: HostRuntime) -> anyhow::Result<ExitCode> {
    let alloc = rt.alloc();
    let words: Vec<String> = env::args(&rt)?.collect(alloc)?;
    let matches = match gasaccount(alloc)?.try_get_matches_from(words.as_slice()) {
        Ok(matches) => matches,
        Err(error) => {
            error.print(&rt)?;
            return Ok(ExitCode::from(error.exit_code() as u8));
        }
    };
    let answer = match matches.subcommand() {
        Some((words::STATEMENT, asked)) => statement(&rt, asked)?,
        Some((words::LATE, asked)) => late(&rt, asked)?,
        // no other word is let through
        _ => return Ok(ExitCode::FAILURE),
    };
    rt.print(answer.output)?;
    rt.eprint(answer.errors)?;
    Ok(ExitCode::from(answer.status))
}
