//! The row of one item.
ghost use Rattle.std.specs.Prelude.{Some};
ghost use Rattle.gas.specs.Inputs.{answer_by};
ghost use Rattle.report.specs.Prices.{answer_text};

use gas::{Item, Millicents, PriceValues, ScheduleFault};
use std::fmt;

/// What an item costs in a case, or why it has no price; shown as a row of `docs/TARIFF.md`.
#[derive(Clone, Copy, Debug, PartialEq, Eq)]
pub struct PriceRow {
    pub case: u8,
    pub item: Item,
    pub answer: Result<Millicents, ScheduleFault>,
}

impl fmt::Display for PriceRow {
    ghost output = { λ r. Some (answer_text r.case r.item (answer_by (λ m. m.amount) r.answer)) };

    fn fmt<W: fmt::Write>(&self, f: &mut fmt::Formatter<W>) -> fmt::Result {
        match self.answer {
            Ok(Millicents { amount }) => {
                write!(f, "{} {} {amount}", self.case, self.item.number())
            }
            Err(fault) => {
                let (number, PriceValues { month, item, layer }) = fault.values();
                write!(
                    f,
                    "{} {} refused {number} {month} {item} {layer}",
                    self.case,
                    self.item.number()
                )
            }
        }
    }
}
