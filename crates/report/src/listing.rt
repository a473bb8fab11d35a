//! The listing of a whole journal.
ghost use Rattle.std.specs.Prelude.{IfOk, vec_items, string_bytes};
ghost use Rattle.std.specs.Option.{option_map};
ghost use Rattle.report.specs.Listing.{Lists, Writes};

use crate::printing::too_long;
use crate::records::{RecordRow, UnreadRow};
use journal::Reader;
use std::alloc::Global;
use std::fmt;

// A row for each record, and a last one where reading is refused.
#[tactic(auto, using(crate::proofs::Turns::start, crate::proofs::Turns::one_more))]
fn list(alloc: Global, journal: &[u8]) -> Result<String, fmt::Error>
    ensures { IfOk result (λ text. Lists journal.now (string_bytes text)) }
{
    let mut text = String::new(alloc);
    let mut reader = Reader::new(journal);
    for number in 1.. {
        match reader.next() {
            Ok(Some(located)) => writeln!(text, "{}", RecordRow { number, located })?,
            Ok(None) => break,
            Err(fault) => {
                writeln!(text, "{}", UnreadRow { number, fault })?;
                break;
            }
        }
    }
    Ok(text)
}

/// All that `records` prints of a journal, or of an input that was too long to be one
/// (`docs/JOURNAL.md`).
pub fn journal_listing(alloc: Global, journal: Option<Vec<u8>>) -> Result<String, fmt::Error>
    ensures { IfOk result (λ text. Writes (option_map vec_items journal) (string_bytes text)) }
{
    let Some(bytes) = journal else {
        return too_long(alloc);
    };
    list(alloc, &bytes)
}
