// The tournament over the taken rows. Row k plays with the winners at rows 2k + 1 and 2k + 2, so that the winner at a row is that of
// itself and of all rows below it, and the winner at row 0 is settled next. Where all of these are settled, any is the winner.
ghost use Rattle.std.specs.Prelude.{◌≡◌, ◌<◌, ◌⊎◌};
ghost use Rattle.standpoint.specs.Algebra.{Algebra};
ghost use Rattle.saturation.specs.Tables.{view, Same};
ghost use Rattle.saturation.specs.Choosing.{Picked, Chosen};
ghost use Rattle.saturation.specs.Tournament.{parent, Beats, Match, Wins, winner_at, Played, PlayedBut, crowned, ButWinners};

use crate::table::Table;
use standpoint::Kind;

// The row that this one plays at next, or none.
fn parent(k: usize) -> Option<usize>
    ensures { result ≡ parent k }
{
    match k {
        0 => None,
        _ => Some((k - 1) / 2),
    }
}

impl<'a, G: Copy> Table<'a, G> {
    // The unsettled row that is to be settled next, or none.
    pub(crate) fn choose(&self) -> Option<usize>
        requires { 0 < self.now.len }
        ensures picked { Picked (view self.now) result }
        ensures first { (a : Algebra G) → Played a (view self.now) → Chosen a (view self.now) self.now.len result }
    {
        let i = self.rows[0].winner as usize;
        if self.is_settled(i) { None } else { Some(i) }
    }

    // Row i is new, or has changed: it may win at itself and at the rows above, so that the winners there are found anew.
    pub(crate) fn rematch<K: Kind<Grade = G>>(&mut self, kind: &K, i: usize)
        requires { i < self.old.len }
        ensures same { Same self.old self.new }
        ensures state { ButWinners (view self.old) (view self.new) }
        ensures played { PlayedBut (K.Kind.algebra kind.now) (view self.old) i → Played (K.Kind.algebra kind.now) (view self.new) }
    {
        let mut at = Some(i);
        while let Some(k) = at {
            let winner = self.winner_of(kind, k);
            self.set_winner(k, winner);
            at = parent(k);
        }
    }

    // The winner at row k, by those at the two rows just below.
    fn winner_of<K: Kind<Grade = G>>(&self, kind: &K, k: usize) -> usize
        requires { k < self.now.len }
        ensures within { result < self.now.len }
        ensures wins { PlayedBut (K.Kind.algebra kind.now) (view self.now) k → Wins (K.Kind.algebra kind.now) (view self.now) k result }
    {
        let winner = self.first_of(kind, k, 2 * k + 1);
        self.first_of(kind, winner, 2 * k + 2)
    }

    // Of row i and the winner at row k, if that is taken, the one that goes first.
    fn first_of<K: Kind<Grade = G>>(&self, kind: &K, i: usize, k: usize) -> usize
        requires { i < self.now.len }
        ensures within { result < self.now.len }
        ensures either { (result ≡ i) ⊎ ((k < self.now.len) × (result ≡ winner_at (view self.now) k)) }
        ensures first { Beats (K.Kind.algebra kind.now) (view self.now) result i × (k < self.now.len → Beats (K.Kind.algebra kind.now) (view self.now) result (winner_at (view self.now) k)) }
    {
        if k >= self.len {
            return i;
        }
        let other = self.rows[k].winner as usize;
        if self.goes_first(kind, other, i) {
            other
        } else {
            i
        }
    }

    // Whether row i goes before row j: a settled one goes last.
    fn goes_first<K: Kind<Grade = G>>(&self, kind: &K, i: usize, j: usize) -> bool
        requires { (i < self.now.len) × (j < self.now.len) }
        ensures { Match (K.Kind.algebra kind.now) (view self.now) i j result }
    {
        if self.is_settled(i) {
            return false;
        }
        if self.is_settled(j) {
            return true;
        }
        self.row_ahead(kind, i, j)
    }

    // Row w is the winner at row k.
    fn set_winner(&mut self, k: usize, w: usize)
        requires { (k < self.old.len) × (w < self.old.len) }
        ensures same { Same self.old self.new }
        ensures state { view self.new ≡ crowned (view self.old) k w }
    {
        self.rows[k].winner = w as u32;
    }
}
