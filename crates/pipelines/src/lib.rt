//! The pipelines that carry the gas, and what they charge where a day or a month is out of balance.
#![tactic(auto)]

mod balancing;
mod imbalance;
mod northern;
mod terms;
mod tolerance;
mod worked;

pub use northern::Northern;
pub use terms::{MOST_PERCENT, MOST_TOLERANCE, MonthTerms};
pub use tolerance::{Tolerance, ToleranceNumbers};
pub use worked::worked_limits;
