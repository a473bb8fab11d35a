//! The rate classes, each of which is a schedule over any pipeline.
#![tactic(auto)]

mod class;
mod dual_fuel;
mod firm;
mod sums;
mod worked;

pub use class::{Class, RateClass};
pub use dual_fuel::{Charges, DualFuel, LargeDualFuel, SmallDualFuel};
pub use firm::{FirmInterruptible, LEAST_BASE, MOST_BASE};
pub use worked::worked_edges;
