// Lanes: where the premises that a rule looks for are found among the settled statements.
ghost use Rattle.std.specs.Prelude.{◌≡◌};
ghost use Rattle.standpoint.specs.Statements.{statement};
ghost use Rattle.saturation.specs.declared.lane.Lane.TheVariants.{Along, AlongIn, Only};
ghost use Rattle.saturation.specs.declared.side.Side.TheVariants.{Source, Target, Inner, Ending, Through};
ghost use Rattle.saturation.specs.Lanes.{when};

use crate::side::Side;
use standpoint::Statement;

// Some of the settled statements.
#[derive(Clone, Copy)]
pub(crate) enum Lane {
    // None of them.
    Nowhere,
    // This place alone.
    Alone(u32),
    // With this node on this side.
    Along(Side, Statement),
    // The same, but in this standpoint alone: it is the first number.
    AlongIn(u16, Side, Statement),
    // This statement alone, by its node on this side.
    Only(Side, Statement),
    // Of any shape, whose first number is this standpoint.
    Outer(u16),
    // Nested inclusions whose third number is this standpoint.
    Inside(u16),
}

impl Lane {
    // This lane, or none.
    pub(crate) fn when(holds: bool, lane: Lane) -> Lane
        ensures { result ≡ when holds lane }
    {
        if holds { lane } else { Lane::Nowhere }
    }

    // The statements that start at a node.
    fn from_source(node: Statement) -> Lane
        ensures { result ≡ Along Source node }
    {
        Lane::Along(Side::Source, node)
    }

    // The statements that end at a node.
    fn to_target(node: Statement) -> Lane
        ensures { result ≡ Along Target node }
    {
        Lane::Along(Side::Target, node)
    }

    // The sharpenings to a standpoint.
    pub(crate) fn sharpened_to(standpoint: u16) -> Lane
        ensures { result ≡ Along Target (statement 1 0 standpoint 0 0 0) }
    {
        Lane::to_target(Statement::sharper(0, standpoint))
    }

    // The sharpenings from a standpoint.
    pub(crate) fn sharpened_from(standpoint: u16) -> Lane
        ensures { result ≡ Along Source (statement 1 standpoint 0 0 0 0) }
    {
        Lane::from_source(Statement::sharper(standpoint, 0))
    }

    // The sharpenings from an intersection of which a standpoint is the first.
    pub(crate) fn both_from(standpoint: u16) -> Lane
        ensures { result ≡ Along Source (statement 2 standpoint 0 0 0 0) }
    {
        Lane::from_source(Statement::intersection_sharper(standpoint, 0, 0))
    }

    // The sharpenings from an intersection of which a standpoint is the second.
    pub(crate) fn both_to(standpoint: u16) -> Lane
        ensures { result ≡ Along Target (statement 2 0 standpoint 0 0 0) }
    {
        Lane::to_target(Statement::intersection_sharper(0, standpoint, 0))
    }

    // The nested inclusions that start at c of s.
    pub(crate) fn nested_from(s: u16, c: u16) -> Lane
        ensures { result ≡ Along Source (statement 3 s c 0 0 0) }
    {
        Lane::from_source(Statement::nested_inclusion(s, c, 0, 0, 0))
    }

    // The possible inclusions that start at c of s.
    pub(crate) fn possible_from(s: u16, c: u16) -> Lane
        ensures { result ≡ Along Source (statement 4 s c 0 0 0) }
    {
        Lane::from_source(Statement::possible_inclusion(s, c, 0, 0))
    }

    // The possible inclusions that end at d of s.
    pub(crate) fn possible_to(s: u16, d: u16) -> Lane
        ensures { result ≡ Along Target (statement 4 0 0 s d 0) }
    {
        Lane::to_target(Statement::possible_inclusion(0, 0, s, d))
    }

    // This possible inclusion alone.
    pub(crate) fn possible(t: u16, c: u16, s: u16, d: u16) -> Lane
        ensures { result ≡ Only Ending (statement 4 t c s d 0) }
    {
        Lane::Only(Side::Ending, Statement::possible_inclusion(t, c, s, d))
    }

    // The nested inclusions within b of t that start inside at c of s.
    pub(crate) fn inside_from(t: u16, b: u16, s: u16, c: u16) -> Lane
        ensures { result ≡ AlongIn t Inner (statement 3 0 b s c 0) }
    {
        Lane::AlongIn(t, Side::Inner, Statement::nested_inclusion(0, b, s, c, 0))
    }

    // The nested inclusions within b of t that end inside at d of s.
    pub(crate) fn inside_to(t: u16, b: u16, s: u16, d: u16) -> Lane
        ensures { result ≡ AlongIn t Ending (statement 3 0 b s 0 d) }
    {
        Lane::AlongIn(t, Side::Ending, Statement::nested_inclusion(0, b, s, 0, d))
    }

    // The nested inclusions within top that end inside at d of s.
    pub(crate) fn subsumed_to(s: u16, d: u16) -> Lane
        ensures { result ≡ Along Ending (statement 3 0 0 s 0 d) }
    {
        Lane::Along(Side::Ending, Statement::nested_inclusion(0, 0, s, 0, d))
    }

    // The nested inclusions of top inside that end at d of s.
    pub(crate) fn necessary_to(s: u16, d: u16) -> Lane
        ensures { result ≡ Along Through (statement 3 0 0 s 0 d) }
    {
        Lane::Along(Side::Through, Statement::nested_inclusion(0, 0, s, 0, d))
    }

    // The nested inclusions that end at d of s.
    pub(crate) fn nested_to(s: u16, d: u16) -> Lane
        ensures { result ≡ Along Target (statement 3 0 0 s 0 d) }
    {
        Lane::to_target(Statement::nested_inclusion(0, 0, s, 0, d))
    }

    // The existentials of a role.
    pub(crate) fn existentials_of(s: u16, r: u16) -> Lane
        ensures { result ≡ Along Inner (statement 5 s 0 r 0 0) }
    {
        Lane::Along(Side::Inner, Statement::existential_right(s, 0, r, 0))
    }

    // The existentials that end at d.
    pub(crate) fn existentials_to(s: u16, d: u16) -> Lane
        ensures { result ≡ Along Target (statement 5 s 0 0 d 0) }
    {
        Lane::to_target(Statement::existential_right(s, 0, 0, d))
    }

    // The existentials of a role that end at d.
    pub(crate) fn existentials_by(s: u16, r: u16, d: u16) -> Lane
        ensures { result ≡ Along Ending (statement 5 s 0 r d 0) }
    {
        Lane::Along(Side::Ending, Statement::existential_right(s, 0, r, d))
    }

    // The left existentials of this role and c.
    pub(crate) fn left_from(s: u16, r: u16, c: u16) -> Lane
        ensures { result ≡ Along Source (statement 6 s r c 0 0) }
    {
        Lane::from_source(Statement::existential_left(s, r, c, 0))
    }

    // The conjunctions of which c is the first part.
    pub(crate) fn conjunctions_from(s: u16, c: u16) -> Lane
        ensures { result ≡ Along Source (statement 7 s c 0 0 0) }
    {
        Lane::from_source(Statement::conjunction_left(s, c, 0, 0))
    }

    // The conjunctions of which c is the second part.
    pub(crate) fn conjunctions_to(s: u16, c: u16) -> Lane
        ensures { result ≡ Along Target (statement 7 s 0 c 0 0) }
    {
        Lane::to_target(Statement::conjunction_left(s, 0, c, 0))
    }

    // The roles that a role lies within.
    pub(crate) fn roles_from(s: u16, r: u16) -> Lane
        ensures { result ≡ Along Source (statement 8 s r 0 0 0) }
    {
        Lane::from_source(Statement::role_inclusion(s, r, 0))
    }

    // The roles that lie within a role.
    pub(crate) fn roles_to(s: u16, r: u16) -> Lane
        ensures { result ≡ Along Target (statement 8 s 0 r 0 0) }
    {
        Lane::to_target(Statement::role_inclusion(s, 0, r))
    }

    // The chains of roles of which r is the first.
    pub(crate) fn chains_from(s: u16, r: u16) -> Lane
        ensures { result ≡ Along Source (statement 9 s r 0 0 0) }
    {
        Lane::from_source(Statement::role_chain(s, r, 0, 0))
    }

    // The chains of roles of which r is the second.
    pub(crate) fn chains_to(s: u16, r: u16) -> Lane
        ensures { result ≡ Along Target (statement 9 s 0 r 0 0) }
    {
        Lane::to_target(Statement::role_chain(s, 0, r, 0))
    }

    // This sharpening alone.
    pub(crate) fn sharpening(s: u16, u: u16) -> Lane
        ensures { result ≡ Only Ending (statement 1 s u 0 0 0) }
    {
        Lane::Only(Side::Ending, Statement::sharper(s, u))
    }

    // The nested inclusion x with d in place of where it ends, alone.
    pub(crate) fn inclusion_to(x: Statement, d: u16) -> Lane
        ensures { result ≡ Only Inner (statement 3 x.first x.second x.third x.fourth d) }
    {
        Lane::Only(
            Side::Inner,
            Statement::nested_inclusion(x.first, x.second, x.third, x.fourth, d),
        )
    }

    // The nested inclusions within top that start inside at where an existential ends.
    pub(crate) fn widening(x: Statement) -> Lane
        ensures { result ≡ Along Inner (statement 3 0 0 x.first x.fourth 0) }
    {
        Lane::Along(
            Side::Inner,
            Statement::nested_inclusion(0, 0, x.first, x.fourth, 0),
        )
    }

    // The existentials of a role from where one ends.
    pub(crate) fn next_existential(x: Statement, role: u16) -> Lane
        ensures { result ≡ Along Source (statement 5 x.first x.fourth role 0 0) }
    {
        Lane::from_source(Statement::existential_right(x.first, x.fourth, role, 0))
    }
}
