// The settled statements in chains, on several sides: by the numbers that a rule knows of the premises it looks for.
ghost use Rattle.std.specs.Prelude.{◌≡◌, ◌<◌, length, slice_index_or};
ghost use Rattle.saturation.specs.Rows.{chain, no_row};
ghost use Rattle.saturation.specs.Chains.{last_in};
ghost use Rattle.saturation.specs.Tables.{view, capacity};
ghost use Rattle.saturation.specs.Buckets.{bucket_of};
ghost use Rattle.saturation.specs.Sides.{source_of, target_of, inner_of, ending_of, through_of, node_of, chain_of, side_bucket, spot_of, spots_of, SpotsWithin, turned, settled_rows};

use crate::row::{Chain, Row};
use crate::table::Table;
use standpoint::Statement;
use standpoint::shape::{
    EXISTENTIAL_LEFT, EXISTENTIAL_RIGHT, INTERSECTION_SHARPER, NESTED_INCLUSION,
    POSSIBLE_INCLUSION, SHARPER,
};

// What a statement is found by. On each side its node is the statement with some of its numbers put to 0.
#[derive(Clone, Copy)]
pub(crate) enum Side {
    // Where it starts.
    Source,
    // Where it ends.
    Target,
    // Where the inclusion inside a nested one starts, and within what; an existential's role; any other statement whole.
    Inner,
    // Where the inclusion inside a nested one ends, and within what; an existential's role and where it ends; any other whole.
    Ending,
    // The inclusion inside a nested one; any other statement whole.
    Through,
}

// Where a statement goes in the chains of a side: its bucket, and the last settled one in that.
#[derive(Clone, Copy)]
pub(crate) struct Spot {
    pub bucket: usize,
    pub last: Option<u32>,
}

// The same on each side.
#[derive(Clone, Copy)]
pub(crate) struct Spots {
    pub source: Spot,
    pub target: Spot,
    pub inner: Spot,
    pub ending: Spot,
    pub through: Spot,
}

fn source_of(x: Statement) -> Statement
    ensures { result ≡ source_of x }
{
    match x.shape {
        SHARPER | INTERSECTION_SHARPER => Statement {
            second: 0,
            third: 0,
            fourth: 0,
            fifth: 0,
            ..x
        },
        EXISTENTIAL_RIGHT | EXISTENTIAL_LEFT => Statement {
            fourth: 0,
            fifth: 0,
            ..x
        },
        _ => Statement {
            third: 0,
            fourth: 0,
            fifth: 0,
            ..x
        },
    }
}

fn target_of(x: Statement) -> Statement
    ensures { result ≡ target_of x }
{
    match x.shape {
        SHARPER | INTERSECTION_SHARPER => Statement {
            first: 0,
            third: 0,
            fourth: 0,
            fifth: 0,
            ..x
        },
        NESTED_INCLUSION => Statement {
            first: 0,
            second: 0,
            fourth: 0,
            ..x
        },
        POSSIBLE_INCLUSION => Statement {
            first: 0,
            second: 0,
            fifth: 0,
            ..x
        },
        EXISTENTIAL_RIGHT => Statement {
            second: 0,
            third: 0,
            fifth: 0,
            ..x
        },
        _ => Statement {
            second: 0,
            fourth: 0,
            fifth: 0,
            ..x
        },
    }
}

fn inner_of(x: Statement) -> Statement
    ensures { result ≡ inner_of x }
{
    match x.shape {
        NESTED_INCLUSION => Statement {
            first: 0,
            fifth: 0,
            ..x
        },
        EXISTENTIAL_RIGHT => Statement {
            second: 0,
            fourth: 0,
            fifth: 0,
            ..x
        },
        _ => x,
    }
}

fn ending_of(x: Statement) -> Statement
    ensures { result ≡ ending_of x }
{
    match x.shape {
        NESTED_INCLUSION => Statement {
            first: 0,
            fourth: 0,
            ..x
        },
        EXISTENTIAL_RIGHT => Statement {
            second: 0,
            fifth: 0,
            ..x
        },
        _ => x,
    }
}

fn through_of(x: Statement) -> Statement
    ensures { result ≡ through_of x }
{
    match x.shape {
        NESTED_INCLUSION => Statement {
            first: 0,
            second: 0,
            ..x
        },
        _ => x,
    }
}

impl Side {
    // The node of a statement.
    pub(crate) fn node(self, x: Statement) -> Statement
        ensures { result ≡ node_of self x }
    {
        match self {
            Side::Source => source_of(x),
            Side::Target => target_of(x),
            Side::Inner => inner_of(x),
            Side::Ending => ending_of(x),
            Side::Through => through_of(x),
        }
    }
}

// Row i is settled k-th, and from then on the last in its bucket on each side.
pub(crate) fn enter_settled(rows: &mut [Row], k: u32, i: u32, spots: Spots)
    requires { (k < length rows.old) × (i < length rows.old) × SpotsWithin spots (length rows.old) }
    ensures { rows.new ≡ settled_rows rows.old k i spots }
{
    rows[k as usize] = linked(rows[k as usize], i, spots);
    rows[i as usize].place = Some(k);
    rows[spots.source.bucket].source.head = k;
    rows[spots.target.bucket].target.head = k;
    rows[spots.inner.bucket].inner.head = k;
    rows[spots.ending.bucket].ending.head = k;
    rows[spots.through.bucket].through.head = k;
}

// A chain whose link is from then on to what was last there.
fn relinked(was: Chain, spot: Spot) -> Chain
    ensures { result ≡ chain was.head spot.last }
{
    Chain {
        head: was.head,
        link: spot.last,
    }
}

// A row with what it tells of a place: which row is settled there, and what is linked from it on each side.
fn linked(row: Row, i: u32, spots: Spots) -> Row
    ensures { result ≡ turned row i spots }
{
    Row {
        turn: i,
        source: relinked(row.source, spots.source),
        target: relinked(row.target, spots.target),
        inner: relinked(row.inner, spots.inner),
        ending: relinked(row.ending, spots.ending),
        through: relinked(row.through, spots.through),
        ..row
    }
}

impl<'a, G: Copy> Table<'a, G> {
    // The columns of a side's chains in row k.
    pub(crate) fn chain(&self, side: Side, k: usize) -> Chain
        requires { k < length self.now.rows.now }
        ensures { result ≡ chain_of side (slice_index_or self.now.rows.now k no_row) }
    {
        match side {
            Side::Source => self.rows[k].source,
            Side::Target => self.rows[k].target,
            Side::Inner => self.rows[k].inner,
            Side::Ending => self.rows[k].ending,
            Side::Through => self.rows[k].through,
        }
    }

    // The bucket of the k-th settled statement on a side.
    fn side_bucket(&self, side: Side, k: usize) -> usize
        requires { k < self.now.settled }
        ensures { result ≡ side_bucket side (capacity (view self.now)) self.now.rows.now k }
    {
        self.bucket(side.node(self.settled_statement(k)))
    }

    // The last settled statement in a bucket of a side, or none. As with `last_in`, a head counts only where it names one.
    fn last_on(&self, side: Side, bucket: usize) -> Option<u32>
        requires { bucket < capacity (view self.now) }
        ensures { result ≡ last_in (side_bucket side (capacity (view self.now)) self.now.rows.now) bucket self.now.settled }
    {
        let head = self.chain(side, bucket).head;
        let at = head as usize;
        if at < self.settled && self.side_bucket(side, at) == bucket {
            Some(head)
        } else {
            None
        }
    }

    // Where statements with this node on this side are found.
    pub(crate) fn spot(&self, side: Side, node: Statement) -> Spot
        requires { 0 < capacity (view self.now) }
        ensures value { result ≡ spot_of side (capacity (view self.now)) self.now.rows.now self.now.settled node }
        ensures within { result.bucket < capacity (view self.now) }
    {
        let bucket = self.bucket(node);
        Spot {
            bucket,
            last: self.last_on(side, bucket),
        }
    }

    // Where a statement goes on each side.
    pub(crate) fn spots(&self, x: Statement) -> Spots
        requires { 0 < capacity (view self.now) }
        ensures value { result ≡ spots_of (capacity (view self.now)) self.now.rows.now self.now.settled x }
        ensures within { SpotsWithin result (capacity (view self.now)) }
    {
        Spots {
            source: self.spot(Side::Source, source_of(x)),
            target: self.spot(Side::Target, target_of(x)),
            inner: self.spot(Side::Inner, inner_of(x)),
            ending: self.spot(Side::Ending, ending_of(x)),
            through: self.spot(Side::Through, through_of(x)),
        }
    }
}
