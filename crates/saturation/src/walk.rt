// Walks back along a lane, from one settled place to the one before.
ghost use Rattle.std.specs.Prelude.{◌≡◌, ◌<◌};
ghost use Rattle.standpoint.specs.Lists.{Tells};
ghost use Rattle.saturation.specs.Chains.{last_in};
ghost use Rattle.saturation.specs.Tables.{view, capacity};
ghost use Rattle.saturation.specs.Sides.{settled_at};
ghost use Rattle.saturation.specs.Lanes.{Within, track, lane_bucket};

use crate::lane::Lane;
use crate::side::Side;
use crate::table::Table;
use standpoint::shape::NESTED_INCLUSION;

impl<'a, G: Copy> Table<'a, G> {
    // Where a walk back along a lane starts: at the last settled place of its chain, if there is one.
    pub(crate) fn last_along(&self, lane: &Lane) -> Option<u32>
        requires { 0 < capacity (view self.now) }
        ensures { result ≡ last_in (track (capacity (view self.now)) self.now.rows.now lane.now) (lane_bucket (capacity (view self.now)) lane.now) self.now.settled }
    {
        match *lane {
            Lane::Nowhere => None,
            Lane::Alone(n) => ((n as usize) < self.settled).then_some(n),
            Lane::Along(side, node) | Lane::AlongIn(_, side, node) => self.spot(side, node).last,
            Lane::Only(side, x) => self.spot(side, side.node(x)).last,
            Lane::Outer(_) | Lane::Inside(_) => (self.settled as u32).checked_sub(1),
        }
    }

    // Where it goes on from place k.
    pub(crate) fn next_along(&self, lane: &Lane, k: usize) -> Option<u32>
        requires { (k < self.now.settled) × (track (capacity (view self.now)) self.now.rows.now lane.now k ≡ lane_bucket (capacity (view self.now)) lane.now) }
        ensures { result ≡ last_in (track (capacity (view self.now)) self.now.rows.now lane.now) (lane_bucket (capacity (view self.now)) lane.now) k }
    {
        match *lane {
            Lane::Nowhere | Lane::Alone(_) => None,
            Lane::Along(side, _) | Lane::AlongIn(_, side, _) | Lane::Only(side, _) => self
                .chain(side, k)
                .link,
            Lane::Outer(_) | Lane::Inside(_) => (k as u32).checked_sub(1),
        }
    }

    // Whether the statement settled at k is on a lane: statements that differ may share a bucket.
    pub(crate) fn is_along(&self, lane: &Lane, k: usize) -> bool
        requires { k < self.now.settled }
        ensures { Tells result (Within lane.now k (settled_at self.now.rows.now k)) }
    {
        match *lane {
            Lane::Nowhere => false,
            Lane::Alone(n) => k == n as usize,
            Lane::Along(side, node) => side.node(self.settled_statement(k)) == node,
            Lane::AlongIn(standpoint, side, node) => {
                let y = self.settled_statement(k);
                y.first == standpoint && side.node(y) == node
            }
            Lane::Only(_, x) => self.settled_statement(k) == x,
            Lane::Outer(standpoint) => self.settled_statement(k).first == standpoint,
            Lane::Inside(standpoint) => {
                let y = self.settled_statement(k);
                y.shape == NESTED_INCLUSION && y.third == standpoint
            }
        }
    }
}
