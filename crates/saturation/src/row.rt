// The rows of a table.
use standpoint::{ACCEPTED, Statement, TAUTOLOGY};

// The rule, or what stands for one in a `Step`, and the settling places of the premises, from 1, 0 where unused. Plain numbers: 0 is
// written out as 0, so that no number of premises is a case of its own.
#[derive(Clone, Copy)]
pub struct Kept {
    pub rule: u8,
    pub first: u32,
    pub second: u32,
    pub third: u32,
}

impl Kept {
    // The step of an accepted statement.
    pub const ACCEPTED: Kept = Kept {
        rule: ACCEPTED,
        first: 0,
        second: 0,
        third: 0,
    };

    // The step of a tautology.
    pub const TAUTOLOGY: Kept = Kept {
        rule: TAUTOLOGY,
        first: 0,
        second: 0,
        third: 0,
    };
}

// Chains of places, two columns of the rows: each bucket names its last place, and each place the one before it in its bucket.
#[derive(Clone, Copy)]
pub struct Chain {
    // In the b-th row, from 0, the last place in bucket b; where there is none, whatever the memory held.
    pub head: u32,
    // In the k-th row, from 0, the last place before the k-th in its bucket.
    pub link: Option<u32>,
}

impl Chain {
    // What memory may hold before it is lent.
    pub const EMPTY: Chain = Chain {
        head: 0,
        link: None,
    };
}

// A statement with the step that gave its grade.
// Numbers of rows take no more room than the most rows need. Fields that are read together stand together.
#[derive(Clone, Copy)]
pub struct Row {
    pub statement: Statement,
    // The settling place, from 0; none while unsettled.
    pub place: Option<u32>,
    // The taken rows, by statement.
    pub index: Chain,
    // A column of its own: in the k-th row, from 0, the winner at it, of the tournament over the taken rows.
    pub winner: u32,
    // A column of its own, since no memory but the lent rows is at hand: in the k-th row, from 0, the row that was settled k-th.
    pub turn: u32,
    // The settled statements, by settling place, each by its node on that side.
    pub source: Chain,
    pub target: Chain,
    pub inner: Chain,
    pub ending: Chain,
    pub through: Chain,
    pub kept: Kept,
    // A column of its own: in the k-th row, from 0, the place of the k-th settled statement in the list of steps that is being
    // written out, from 1; 0 where it is not on that list. A place, and not a mark alone, so that a premise is numbered by one look.
    pub listed: u32,
}

impl Row {
    // What memory may hold before it is lent.
    pub const EMPTY: Row = Row {
        statement: Statement::CONTRADICTION,
        place: None,
        index: Chain::EMPTY,
        winner: 0,
        turn: 0,
        source: Chain::EMPTY,
        target: Chain::EMPTY,
        inner: Chain::EMPTY,
        ending: Chain::EMPTY,
        through: Chain::EMPTY,
        kept: Kept::ACCEPTED,
        listed: 0,
    };
}
