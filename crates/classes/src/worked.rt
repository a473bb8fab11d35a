//! Cases worked out by hand, of which the definitions are proved to say what was expected.
ghost use Rattle.std.specs.Prelude.{◌≡◌, length};
ghost use Rattle.gas.specs.Worked.{IsAsExpected};
ghost use Rattle.classes.specs.Worked.{EdgesAsExpected, edges, limits};

/// How many days, months and unauthorized uses at the edges of the rules come to what was expected;
/// and the limits of base levels are those that were laid down (`docs/TARIFF.md`).
pub fn worked_edges() -> u8
    ensures count { result ≡ length edges }
    ensures expected { EdgesAsExpected }
    ensures limits { IsAsExpected limits }
{
    9
}
