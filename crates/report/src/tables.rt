//! The rows of a month on a schedule.
ghost use Rattle.std.specs.Prelude.{◌≡◌, ◌++◌, OnOk, codes, string_bytes};
ghost use Rattle.gas.specs.Facts.{facts_of};
ghost use Rattle.report.specs.Prices.{case_text, header, table_text};

use crate::prices::PriceRow;
use gas::{Facts, Item, Schedule};
use std::fmt;

/// The row above all others (`docs/TARIFF.md`).
pub fn price_header(text: &mut String) -> Result<(), fmt::Error>
    ensures { OnOk result (string_bytes text.new ≡
        string_bytes text.old ++ (header ++ codes "\n")) }
{
    writeln!(text, "case item millicents")?;
    Ok(())
}

// A row for each of some items.
fn rows<S: Schedule>(
    text: &mut String,
    case: u8,
    schedule: &S,
    facts: &Facts,
    items: &[Item],
) -> Result<(), fmt::Error>
    ensures { OnOk result (string_bytes text.new ≡
        string_bytes text.old ++
        table_text case ((S.tariff schedule.now).price (facts_of facts.now)) items.now) }
{
    for item in items {
        let answer = schedule.price(facts, *item);
        let row = PriceRow {
            case,
            item: *item,
            answer: answer.map(|amount| amount.millicents),
        };
        writeln!(text, "{row}")?;
    }
    Ok(())
}

/// A row for each item of a month (`docs/TARIFF.md`).
#[tactic(auto, unfolding(crate::specs::Prices::case_text))]
pub fn price_table<S: Schedule>(
    text: &mut String,
    case: u8,
    schedule: &S,
    facts: &Facts,
) -> Result<(), fmt::Error>
    ensures { OnOk result (string_bytes text.new ≡
        string_bytes text.old ++
        case_text case (S.tariff schedule.now).price (facts_of facts.now)) }
{
    rows(text, case, schedule, facts, &Item::ALL)
}
