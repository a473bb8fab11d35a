//! The numbers of an opening, and of a settlement.
ghost use Rattle.std.specs.Prelude.{◌≡◌, ℕ, ◌&&◌, [], ◌∷◌, IfOk, nat_le};
ghost use Rattle.std.specs.Result.{result_err};
ghost use Rattle.gas.specs.declared.faults.InputFault.TheVariants as faults;
ghost use Rattle.gas.specs.Inputs.{first_failure, mark_number, answer_by, value_if};
ghost use Rattle.ledger.specs.Calls.{opening_input, settlement_input};
ghost use Rattle.book.specs.Terms.{opening_numbers, settlement_numbers};
ghost use Rattle.gas.specs.declared.calendar.TheConstants.{LAST_MONTH};

use book::{OpeningTerms, SettlementTerms};
use gas::{InputFault, Month, PerMille, mark};
use ledger::AccountFault;

// The first and the last interim month; refused where one is above 11, or the first comes after the
// last.
fn interim_months(first: u8, last: u8) -> Result<(Month, Month), InputFault>
    ensures { answer_by {B = ℕ × ℕ} (λ months. (months.0.number, months.1.number)) result ≡
        value_if (nat_le last LAST_MONTH && nat_le first last) faults.Month (first, last) }
{
    if first > last {
        return Err(InputFault::Month);
    }
    Ok((Month::try_from(first)?, Month::try_from(last)?))
}

/// Whether it is a leap year, with the terms of the opening. Refused are, in this order, with 3 the
/// months, with 6 the leap mark, and with 8 the increase (`docs/ACCOUNT.md`).
pub fn opening_terms(
    leap: u8,
    increase: u16,
    first: u8,
    last: u8,
) -> Result<(bool, OpeningTerms), AccountFault>
    ensures refused { result_err result ≡
        first_failure
        (opening_input leap (record { increase = increase; first = first; last = last })) }
    ensures leap { IfOk result (λ o. mark_number o.0 ≡ leap) }
    ensures terms { IfOk result (λ o.
        opening_numbers o.1 ≡ record { increase = increase; first = first; last = last }) }
{
    let (first, last) = interim_months(first, last)?;
    let leap = mark(leap)?;
    let increase = PerMille::try_from(increase)?;
    let terms = OpeningTerms {
        increase,
        first,
        last,
    };
    Ok((leap, terms))
}

/// The terms of a settlement; refused with 8 is an increase or an interest above 1,000
/// (`docs/ACCOUNT.md`).
pub fn settlement_terms(final_increase: u16, interest: u16) -> Result<SettlementTerms, AccountFault>
    ensures refused { result_err result ≡
        first_failure
        (settlement_input (record { final_increase = final_increase; interest = interest })
        ∷ []) }
    ensures terms { IfOk result (λ t.
        settlement_numbers t ≡
        record { final_increase = final_increase; interest = interest }) }
{
    Ok(SettlementTerms {
        final_increase: PerMille::try_from(final_increase)?,
        interest: PerMille::try_from(interest)?,
    })
}
