// One rule, tried on settled premises.
ghost use Rattle.std.specs.Prelude.{◌≡◌, ◌<◌, is_ok};
ghost use Rattle.standpoint.specs.RuleNumbers.{number_of_rule};
ghost use Rattle.standpoint.specs.Rules.{listed};
ghost use Rattle.saturation.specs.Tables.{view, Same};
ghost use Rattle.saturation.specs.Places.{listed_places, statements_of, grades_of, joined, Step};
ghost use Rattle.saturation.specs.Searching.{premises_in, SettledPlaces, OnLane, seated, Went};

use crate::lane::Lane;
use crate::places::{Places, Position};
use crate::rows::NoRow;
use crate::table::Table;
use standpoint::{Kind, Premises, Rule};

// What an inference rests on besides its premises: the rule, how many individuals there are, and the kind by which grades are
// joined.
#[derive(Drop)]
pub(crate) struct Inference<'k, K: Kind> {
    pub kind: &'k K,
    pub individuals: u16,
    pub rule: Rule,
}

// Each call says anew that places are settled: they are places in this very table, and no value beside it keeps them in range.
impl<'a, G: Copy> Table<'a, G> {
    // The statements settled at these places.
    fn premises(&self, at: Places) -> Premises
        requires { SettledPlaces self.now.settled (listed_places at) }
        ensures { (d : G) → listed result ≡ statements_of (premises_in (view self.now) d (listed_places at)) }
    {
        match at {
            Places::One(i) => Premises::One(self.settled_statement(i)),
            Places::Two(i, j) => {
                Premises::Two(self.settled_statement(i), self.settled_statement(j))
            }
            Places::Three(i, j, k) => Premises::Three(
                self.settled_statement(i),
                self.settled_statement(j),
                self.settled_statement(k),
            ),
        }
    }

    // The grades settled at these places, joined from the left.
    fn joined<K: Kind<Grade = G>>(&self, kind: &K, at: Places) -> G
        requires { SettledPlaces self.now.settled (listed_places at) }
        ensures { (d : G) → result ≡ joined (K.Kind.algebra kind.now) (grades_of (premises_in (view self.now) d (listed_places at))) }
    {
        match at {
            Places::One(i) => self.settled_grade(i),
            Places::Two(i, j) => kind.join(self.settled_grade(i), self.settled_grade(j)),
            Places::Three(i, j, k) => {
                let two = kind.join(self.settled_grade(i), self.settled_grade(j));
                kind.join(two, self.settled_grade(k))
            }
        }
    }

    // Offers what the rule gives from the premises settled at these places.
    pub(crate) fn attempt<K: Kind<Grade = G>>(
        &mut self,
        inference: &Inference<'_, K>,
        at: Places,
    ) -> Result<(), NoRow>
        requires { SettledPlaces self.old.settled (listed_places at) }
        ensures same { Same self.old self.new }
        ensures state { Went (K.Kind.algebra inference.now.kind.now) inference.now.individuals (view self.old) (view self.new) (λ l. Step (K.Kind.algebra inference.now.kind.now) inference.now.individuals l (number_of_rule inference.now.rule) (listed_places at)) (λ l. Step (K.Kind.algebra inference.now.kind.now) inference.now.individuals l (number_of_rule inference.now.rule) (listed_places at)) (is_ok result) }
    {
        match inference
            .rule
            .conclude(inference.individuals, self.premises(at))
        {
            Some(x) => self.offer(
                inference.kind,
                x,
                self.joined(inference.kind, at),
                at.kept(inference.rule),
            ),
            None => Ok(()),
        }
    }

    // The same of the newest at this position, its partner i and the last one j, where that is on this lane.
    pub(crate) fn attempt_along<K: Kind<Grade = G>>(
        &mut self,
        inference: &Inference<'_, K>,
        lane: &Lane,
        position: Position,
        newest: usize,
        i: usize,
        j: usize,
    ) -> Result<(), NoRow>
        requires { (newest < self.old.settled) × (i < self.old.settled) × (j < self.old.settled) }
        ensures same { Same self.old self.new }
        ensures state { Went (K.Kind.algebra inference.now.kind.now) inference.now.individuals (view self.old) (view self.new) (λ l o. OnLane lane.now l j × Step (K.Kind.algebra inference.now.kind.now) inference.now.individuals l (number_of_rule inference.now.rule) (seated (number_of_rule inference.now.rule) position newest i j) o) (λ l. Step (K.Kind.algebra inference.now.kind.now) inference.now.individuals l (number_of_rule inference.now.rule) (seated (number_of_rule inference.now.rule) position newest i j)) (is_ok result) }
    {
        if !self.is_along(lane, j) {
            return Ok(());
        }
        self.attempt(inference, position.seat(inference.rule, newest, i, j))
    }
}
