//! What a gas account is made of: therms, money and rates, the calendar, the raw numbers of days
//! and months and the lawful values that are made of them, every refusal of such numbers, the
//! interfaces of pipelines and rate schedules, and putting bytes into a caller's buffer.
#![tactic(auto)]

mod amount;
mod buffers;
mod calendar;
mod day;
mod facts;
mod faults;
mod items;
mod marks;
mod messages;
mod month;
mod pipeline;
mod schedule;
mod units;
mod worked;

pub use amount::{Amount, MOST_AMOUNT};
pub use buffers::{WriteFault, put_at_start};
pub use calendar::{LAST_MONTH, Month};
pub use day::{DayKind, DayNumbers, DayRecord, MOST_A_DAY};
pub use facts::{Facts, MOST_DAYS, MonthNumbers, WholeMonth};
pub use faults::InputFault;
pub use items::{Item, Layer, PriceValues, ScheduleFault};
pub use marks::mark;
pub use messages::message;
pub use month::{Closing, ClosingNumbers, MOST_A_MONTH, Totals, TotalsNumbers};
pub use pipeline::Pipeline;
pub use schedule::Schedule;
pub use units::{MOST_PER_MILLE, MOST_PER_THERM, Millicents, PerMille, Rate, Therms};
pub use worked::worked_limits;
