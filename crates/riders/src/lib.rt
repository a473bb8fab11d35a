//! Riders: surcharges that wrap a schedule of any make, and make another of it.
#![tactic(auto)]

mod affordability;
mod franchise;
mod interim;
mod rates;
mod rider;
mod spans;
mod weather;
mod with_rider;
mod worked;

pub use affordability::Affordability;
pub use franchise::Franchise;
pub use interim::Interim;
pub use rates::weather_rate;
pub use rider::Rider;
pub use spans::{FIRST_YEAR, GasYear, LAST_YEAR};
pub use weather::Weather;
pub use with_rider::WithRider;
pub use worked::weather_months;
