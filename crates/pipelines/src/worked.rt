//! The limits of percentages, which are proved to be those that were laid down.
ghost use Rattle.std.specs.Prelude.{◌≡◌, length};
ghost use Rattle.gas.specs.Worked.{IsAsExpected};
ghost use Rattle.pipelines.specs.Worked.{limits};

/// How many limits of percentages are those that were laid down (`docs/TARIFF.md`).
pub fn worked_limits() -> u8
    ensures count { result ≡ length limits }
    ensures expected { IsAsExpected limits }
{
    2
}
