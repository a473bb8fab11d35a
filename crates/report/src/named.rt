//! What is printed of a journal, under the name of its file.
ghost use Rattle.std.specs.Prelude.{◌≡◌, ◌++◌, IfOk, string_bytes, vec_items};
ghost use Rattle.std.specs.Option.{option_map};
ghost use Rattle.report.specs.Named.{IsNamed, name_row};
ghost use Rattle.report.specs.Outputs.{Prints};

use crate::printing::output;
use std::alloc::Global;
use std::fmt;

/// A row with the name of a journal's file, and what is printed of the journal
/// (`docs/ACCOUNT.md`).
pub fn named(alloc: Global, name: &str, printed: &str) -> Result<String, fmt::Error>
    ensures { IfOk result (λ text. string_bytes text ≡ name_row name.now ++ printed.now) }
{
    let mut text = String::new(alloc);
    writeln!(text, "journal {name}")?;
    write!(text, "{printed}")?;
    Ok(text)
}

/// A row with the name of a journal's file, and what `lines` prints of the journal
/// (`docs/ACCOUNT.md`).
pub fn named_output(
    alloc: Global,
    name: &str,
    journal: Option<Vec<u8>>,
) -> Result<String, fmt::Error>
    ensures { IfOk result (λ text.
        IsNamed name.now (Prints (option_map vec_items journal)) (string_bytes text)) }
{
    let printed = output(alloc, journal)?;
    named(alloc, name, &printed)
}
