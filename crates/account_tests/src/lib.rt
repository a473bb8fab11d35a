//! Tests of an account: refusals in their order, limits, prices past theirs, room for lines, worked
//! figures, questions, statements, late charges, records as calls, and whole journals.
#![tactic(auto)]

#[cfg(test)]
mod entering;
#[cfg(test)]
mod first_days;
#[cfg(test)]
mod fixtures;
#[cfg(test)]
mod late;
#[cfg(test)]
mod limits;
#[cfg(test)]
mod messages;
#[cfg(test)]
mod november;
#[cfg(test)]
mod overruns;
#[cfg(test)]
mod playing;
#[cfg(test)]
mod questions;
#[cfg(test)]
mod refusals;
#[cfg(test)]
mod room;
#[cfg(test)]
mod statements;
