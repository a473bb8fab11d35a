//! The words of the command line (`docs/ACCOUNT.md`, `docs/STATEMENTS.md`).
use clap::{Arg, ArgAction, Command, value_parser};
use std::alloc::{AllocError, Global};

/// The word that asks for a month's statement.
pub const STATEMENT: &str = "statement";

/// The argument with the month of a statement.
pub const MONTH: &str = "MONTH";

/// The option by which a statement's lines come first.
pub const LINES: &str = "lines";

/// The word that asks for late charges.
pub const LATE: &str = "late";

/// The argument with the numbers of the lines up to which they are made.
pub const NUMBERS: &str = "K";

// A month's statement.
fn statement<'a>(alloc: Global) -> Result<Command<'a>, AllocError> {
    let month = Arg::new(alloc, MONTH)
        .required(true)
        .action(ArgAction::Set)
        .help("0 for November to 11 for October, or 12 for the year as a whole");
    let lines = Arg::new(alloc, LINES)
        .long(LINES)
        .action(ArgAction::SetTrue)
        .help("Print the month's lines first");
    Command::new(alloc, STATEMENT)
        .about("Prints a month's statement: for each item its sum in cents, and the total")
        .arg(month)?
        .arg(lines)
}

// Late charges behind the journal.
fn late<'a>(alloc: Global) -> Result<Command<'a>, AllocError> {
    let numbers = Arg::new(alloc, NUMBERS)
        .required(true)
        .num_args(1..)
        .action(ArgAction::Append)
        .value_parser(value_parser!(usize))
        .help("The number of a line up to which lines were due; one charge for each, in order");
    Command::new(alloc, LATE)
        .about("Makes late charges, and prints what lines prints")
        .arg(numbers)
}

/// All words that the program takes (`docs/ACCOUNT.md`, `docs/STATEMENTS.md`).
pub fn gasaccount<'a>(alloc: Global) -> Result<Command<'a>, AllocError> {
    Command::new(alloc, "gasaccount")
        .about("Plays a journal from standard input into a gas account")
        .subcommand_required(true)
        .subcommand(statement(alloc)?)?
        .subcommand(late(alloc)?)
}
