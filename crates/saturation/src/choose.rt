// Which of two statements is settled first.
ghost use Rattle.std.specs.Prelude.{◌<◌};
ghost use Rattle.standpoint.specs.Lists.{Tells};
ghost use Rattle.saturation.specs.Tables.{view};
ghost use Rattle.saturation.specs.Choosing.{Ahead, RowsAhead, RowAhead};

use crate::table::Table;
use standpoint::{Kind, Statement};

// Whether x at g is settled before y at h: the better grade, and among equals the least statement.
fn comes_first<K: Kind>(kind: &K, g: K::Grade, x: Statement, h: K::Grade, y: Statement) -> bool
    ensures { Tells result (Ahead (K.Kind.algebra kind.now) g x h y) }
{
    if !kind.no_worse(g, h) {
        return false;
    }
    if !kind.no_worse(h, g) {
        return true;
    }
    x.before(y)
}

impl<'a, G: Copy> Table<'a, G> {
    // Whether row i is settled before row j.
    pub(crate) fn row_ahead<K: Kind<Grade = G>>(&self, kind: &K, i: usize, j: usize) -> bool
        requires { (i < self.now.len) × (j < self.now.len) }
        ensures { Tells result (RowAhead (K.Kind.algebra kind.now) (view self.now) i j) }
    {
        comes_first(
            kind,
            self.grades[i],
            self.rows[i].statement,
            self.grades[j],
            self.rows[j].statement,
        )
    }
}
