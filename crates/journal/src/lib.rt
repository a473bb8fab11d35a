//! The journal of a gas account: its records, and the reading and writing of their bytes.
#![tactic(auto)]

mod bodies;
mod faults;
mod input;
mod kinds;
mod reader;
mod writer;

pub use faults::ReadFault;
pub use input::{MOST_BYTES, load};
pub use kinds::{Day, Located, Record};
pub use reader::Reader;
pub use writer::write;
