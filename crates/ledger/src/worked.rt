//! The limits of an account, which are proved to be those that were laid down.
ghost use Rattle.std.specs.Prelude.{◌≡◌, length};
ghost use Rattle.gas.specs.Worked.{IsAsExpected};
ghost use Rattle.ledger.specs.Worked.{limits};

/// How many limits of an account's lines, payments, late charges and statements are those that were
/// laid down (`docs/ACCOUNT.md`, `docs/LEDGER.md`, `docs/STATEMENTS.md`).
pub fn worked_limits() -> u8
    ensures count { result ≡ length limits }
    ensures expected { IsAsExpected limits }
{
    11
}
