//! The line of a payment.
ghost use Rattle.std.specs.Prelude.{◌≡◌, neg_ℤ, pos};
ghost use Rattle.std.specs.Int.{is_in_range};
ghost use Rattle.gas.specs.declared.faults.InputFault.TheVariants as faults;
ghost use Rattle.gas.specs.Inputs.{value_if};
ghost use Rattle.ledger.specs.declared.lines.Heading.TheVariants as headings;
ghost use Rattle.ledger.specs.declared.lines.TheConstants.{MOST_PAID};
ghost use Rattle.ledger.specs.Headings.{line_of};

use gas::{InputFault, Millicents};
use ledger::{Heading, Line, MOST_PAID, SignedTherms};

/// The line that takes off what is paid, in millicents; refused with 9 are a payment of nothing and
/// one above 10^13 (`docs/ACCOUNT.md`).
pub fn payment_line(amount: u64) -> Result<Line, InputFault>
    ensures { result ≡
        value_if (is_in_range 1 MOST_PAID amount) faults.Payment
        (line_of headings.Payment (pos 0) (neg_ℤ (pos amount))) }
{
    if !(1..=MOST_PAID).contains(&amount) {
        return Err(InputFault::Payment);
    }
    let paid = Millicents {
        amount: amount as i64,
    };
    Ok(Line {
        heading: Heading::Payment,
        therms: SignedTherms::default(),
        money: Millicents::default() - paid,
    })
}
