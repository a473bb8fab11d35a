//! Every text that a program prints: the lines of the account that a journal makes, what was
//! refused and their sum; the same under a file's name; the statements of one month and of all; the
//! listing of a journal; and tables of prices.
#![tactic(auto)]

mod answer;
mod late;
mod listing;
mod months;
mod named;
mod playing;
mod prices;
mod printing;
mod records;
mod rows;
mod schedule;
mod statement;
mod tables;
#[cfg(test)]
mod tests;

pub use answer::Answer;
pub use late::late_answer;
pub use listing::journal_listing;
pub use months::months_output;
pub use named::named_output;
pub use printing::output;
pub use statement::{asked_month, statement_answer};
pub use tables::{price_header, price_table};
