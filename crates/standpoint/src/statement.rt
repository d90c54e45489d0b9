// Statements in normal form.
ghost use Rattle.std.specs.Prelude.{◌≡◌};
ghost use Rattle.standpoint.specs.Lists.{Tells};
ghost use Rattle.standpoint.specs.Statements.{Before, statement, sharper, intersection_sharper, nested_inclusion, possible_inclusion, existential_right, existential_left, conjunction_left, role_inclusion, role_chain};

use crate::shape;

// A statement: its shape, 1 to 9, and five numbers, unused ones 0; ordered by the fields in turn. The shape is no enum, since
// files and callers may hand any byte, and a statement of no shape is refused.
#[derive(Clone, Copy, PartialEq, Eq, PartialOrd, Ord)]
pub struct Statement {
    pub shape: u8,
    pub first: u16,
    pub second: u16,
    pub third: u16,
    pub fourth: u16,
    pub fifth: u16,
}

// A constructor for each shape, by the calculus' name for it.
impl Statement {
    // The contradiction: everything is nothing, everywhere.
    pub const CONTRADICTION: Statement = Statement {
        shape: shape::NESTED_INCLUSION,
        first: 0,
        second: 0,
        third: 0,
        fourth: 0,
        fifth: 1,
    };

    // s is sharper than or equal to u.
    pub fn sharper(s: u16, u: u16) -> Statement
        ensures { result ≡ sharper s u }
    {
        Statement::numbered(shape::SHARPER, s, u, 0, 0, 0)
    }

    // What belongs to both s1 and s2 belongs to u.
    pub fn intersection_sharper(s1: u16, s2: u16, u: u16) -> Statement
        ensures { result ≡ intersection_sharper s1 s2 u }
    {
        Statement::numbered(shape::INTERSECTION_SHARPER, s1, s2, u, 0, 0)
    }

    // In t, each b is, throughout s, d wherever it is c.
    pub fn nested_inclusion(t: u16, b: u16, s: u16, c: u16, d: u16) -> Statement
        ensures { result ≡ nested_inclusion t b s c d }
    {
        Statement::numbered(shape::NESTED_INCLUSION, t, b, s, c, d)
    }

    // In t, each c is d somewhere in s.
    pub fn possible_inclusion(t: u16, c: u16, s: u16, d: u16) -> Statement
        ensures { result ≡ possible_inclusion t c s d }
    {
        Statement::numbered(shape::POSSIBLE_INCLUSION, t, c, s, d, 0)
    }

    // In s, each c has an r to some d.
    pub fn existential_right(s: u16, c: u16, r: u16, d: u16) -> Statement
        ensures { result ≡ existential_right s c r d }
    {
        Statement::numbered(shape::EXISTENTIAL_RIGHT, s, c, r, d, 0)
    }

    // In s, what has an r to some c is d.
    pub fn existential_left(s: u16, r: u16, c: u16, d: u16) -> Statement
        ensures { result ≡ existential_left s r c d }
    {
        Statement::numbered(shape::EXISTENTIAL_LEFT, s, r, c, d, 0)
    }

    // In s, what is c1 and c2 is d.
    pub fn conjunction_left(s: u16, c1: u16, c2: u16, d: u16) -> Statement
        ensures { result ≡ conjunction_left s c1 c2 d }
    {
        Statement::numbered(shape::CONJUNCTION_LEFT, s, c1, c2, d, 0)
    }

    // In s, r1 lies within r2.
    pub fn role_inclusion(s: u16, r1: u16, r2: u16) -> Statement
        ensures { result ≡ role_inclusion s r1 r2 }
    {
        Statement::numbered(shape::ROLE_INCLUSION, s, r1, r2, 0, 0)
    }

    // In s, r1 followed by r2 lies within r3.
    pub fn role_chain(s: u16, r1: u16, r2: u16, r3: u16) -> Statement
        ensures { result ≡ role_chain s r1 r2 r3 }
    {
        Statement::numbered(shape::ROLE_CHAIN, s, r1, r2, r3, 0)
    }

    // Whether this statement stands before another. A word of its own beside `<`, for contracts that speak of this order.
    pub fn before(self, other: Statement) -> bool
        ensures { Tells result (Before self other) }
    {
        self < other
    }

    fn numbered(shape: u8, a: u16, b: u16, c: u16, d: u16, e: u16) -> Statement
        ensures { result ≡ statement shape a b c d e }
    {
        Statement {
            shape,
            first: a,
            second: b,
            third: c,
            fourth: d,
            fifth: e,
        }
    }
}

// What a number of a statement names.
#[derive(Clone, Copy)]
pub enum Sort {
    Standpoint,
    Concept,
    Role,
    Unused,
}

// The sorts of the five numbers of a shape.
#[derive(Clone, Copy)]
pub struct Sorts {
    pub first: Sort,
    pub second: Sort,
    pub third: Sort,
    pub fourth: Sort,
    pub fifth: Sort,
}
