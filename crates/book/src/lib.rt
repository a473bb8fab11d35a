//! The book of an account: the tables of its days, closings and lines, and what is worked out from
//! them.
#![tactic(auto)]

mod book;
mod closings;
mod dated;
mod days;
mod due;
mod first;
mod payment;
mod peak;
mod places;
mod questions;
mod settlement;
mod table;
mod targets;
mod terms;
mod therms;
mod year;

pub use book::Book;
pub use terms::{OpeningTerms, SettlementTerms, Terms};
