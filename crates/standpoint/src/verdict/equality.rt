// When what two steps give is the same: a statement and its grade, side by side as steps and accepted statements hold them.
ghost use Rattle.std.specs.Prelude.{◌≡◌};
ghost use Rattle.standpoint.specs.Lists.{Tells};

use crate::kinds::Kind;
use crate::statement::Statement;

// Whether both the statements and the grades are equal.
pub(super) fn same<K: Kind>(kind: &K, x: Statement, g: K::Grade, y: Statement, h: K::Grade) -> bool
    ensures { Tells result ((x ≡ y) × (g ≡ h)) }
{
    x == y && equal(kind, g, h)
}

// Equal grades are each no worse than the other.
pub(super) fn equal<K: Kind>(kind: &K, g: K::Grade, h: K::Grade) -> bool
    ensures { Tells result (g ≡ h) }
{
    kind.no_worse(g, h) && kind.no_worse(h, g)
}
