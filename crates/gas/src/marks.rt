//! Marks, which are 1 for yes and 0 for no.
ghost use Rattle.std.specs.Prelude.{◌≡◌};
ghost use Rattle.gas.specs.Inputs.{checked_mark, mark_number, answer_by};

use crate::faults::InputFault;

/// What a mark says, 1 for yes and 0 for no; refused with 6 above 1 (`docs/TARIFF.md`).
pub fn mark(number: u8) -> Result<bool, InputFault>
    ensures { answer_by mark_number result ≡ checked_mark number }
{
    match number {
        0 => Ok(false),
        1 => Ok(true),
        _ => Err(InputFault::Mark),
    }
}
