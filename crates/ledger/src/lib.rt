//! What an account's lines have to add up to: the lines and refusals themselves, and, in the
//! definitions, the year as known, the lines due, the outcome of every call and the law of all
//! runs.
#![tactic(auto)]

mod cents;
mod faults;
mod late;
mod lines;
mod statement;
mod sums;
mod worked;

pub use cents::{Cents, MILLICENTS_A_CENT};
pub use faults::AccountFault;
pub use late::{LATE_PER_MILLE, LEAST_LATE_CHARGE, MOST_CHARGED, MOST_UNCHARGED, late_line};
pub use lines::{
    Heading, LAST_ITEM, Line, MOST_LINES, MOST_PAID, PAYMENT_ITEM, SignedTherms, Target, WHOLE_YEAR,
};
pub use statement::{MOST_TEXT, NumberedLine, Statement};
pub use worked::worked_limits;
