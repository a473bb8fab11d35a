//! The gas account: its seven calls, its questions, and the playing of a journal.
#![tactic(auto)]

mod account;
mod faults;
mod inputs;
mod standing;

pub use account::Account;
pub use faults::{JournalFault, Refusal};
