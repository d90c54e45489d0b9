// One turn of a run.
ghost use Rattle.std.specs.Prelude.{◌≡◌, ◌+◌, ◌<◌};
ghost use Rattle.saturation.specs.Phases.{sizes_of};
ghost use Rattle.saturation.specs.Tables.{view, OpenAt, Same, settled_row};
ghost use Rattle.saturation.specs.Turns.{Turned};

use crate::rows::NoRow;
use crate::side::enter_settled;
use crate::table::Table;
use standpoint::Kind;

// What a turn came to.
#[derive(Clone, Copy)]
pub(crate) enum Turn {
    // Every taken row was settled before.
    Nothing,
    // One more is settled, and all that follows from it is offered.
    Settled,
    // One more is settled, and something that follows from it found no row.
    Overflowed,
}

impl<'a, G: Copy> Table<'a, G> {
    // Settles the next statement, and offers all that follows from it.
    pub(crate) fn settle_one<K: Kind<Grade = G>>(&mut self, kind: &K) -> Turn
        ensures same { Same self.old self.new }
        ensures state { Turned (K.Kind.algebra kind.now) (sizes_of self.old.phase).individuals (view self.old) (view self.new) result }
    {
        let newest = self.settled;
        let individuals = self.individuals();
        if newest >= self.len {
            return Turn::Nothing;
        }
        let Some(i) = self.choose() else {
            return Turn::Nothing;
        };
        self.settle_row(i);
        self.rematch(kind, i);
        match self.search(kind, individuals, newest) {
            Ok(()) => Turn::Settled,
            Err(NoRow) => Turn::Overflowed,
        }
    }

    // How many individuals the run speaks of; none where no run is begun.
    fn individuals(&self) -> u16
        ensures { result ≡ (sizes_of self.now.phase).individuals }
    {
        self.sizes().map_or(0, |sizes| sizes.individuals)
    }

    // Row i, which is unsettled, is settled in the next turn.
    fn settle_row(&mut self, i: usize)
        requires { (i < self.old.len) × (self.old.settled < self.old.len) × OpenAt (view self.old) i }
        ensures same { Same self.old self.new }
        ensures state { view self.new ≡ settled_row (view self.old) i }
    {
        let k = self.settled as u32;
        let spots = self.spots(self.rows[i].statement);
        enter_settled(self.rows, k, i as u32, spots);
        self.settled += 1;
    }
}
