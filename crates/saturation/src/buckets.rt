// The index inside the rows: there are as many buckets as the table uses rows, and a statement is looked for in its own.
ghost use Rattle.std.specs.Prelude.{◌≡◌, ◌<◌, length};
ghost use Rattle.saturation.specs.Chains.{last_in};
ghost use Rattle.saturation.specs.Tables.{view, capacity};
ghost use Rattle.saturation.specs.Buckets.{triple, mixed, bucket_of, bucket_at, entered};

use crate::row::Row;
use crate::table::Table;
use standpoint::Statement;

// 2^64 by the golden ratio: what differs in one small number is far apart in the high bits.
const SPREAD: u64 = 0x9E37_79B9_7F4A_7C15;

// Three numbers in one.
fn triple(first: u16, second: u16, third: u16) -> u64
    ensures { result ≡ triple first second third }
{
    (u64::from(first) * 0x1_0000 + u64::from(second)) * 0x1_0000 + u64::from(third)
}

// One number more is mixed in.
fn mixed(hash: u64, number: u64) -> u64
    ensures { result ≡ mixed hash number }
{
    hash.wrapping_add(number).wrapping_mul(SPREAD)
}

// The bucket of a statement among so many: by the high bits, on which all numbers bear, and a product, since a division takes longer.
fn bucket_of(statement: Statement, buckets: usize) -> usize
    requires { 0 < buckets }
    ensures value { result ≡ bucket_of buckets statement }
    ensures within { result < buckets }
{
    let Statement {
        shape,
        first,
        second,
        third,
        fourth,
        fifth,
    } = statement;
    let hash = mixed(0, triple(first, second, third));
    let hash = mixed(hash, triple(u16::from(shape), fourth, fifth));
    ((hash >> 32).wrapping_mul(buckets as u64) >> 32) as usize
}

// Writes the next row, from then on the last of its bucket.
pub(crate) fn enter(rows: &mut [Row], at: usize, row: Row, bucket: usize)
    requires { (at < length rows.old) × (at < 16777215) × (bucket < length rows.old) }
    ensures { rows.new ≡ entered rows.old at row bucket }
{
    rows[at] = row;
    rows[bucket].index.head = at as u32;
}

impl<'a, G: Copy> Table<'a, G> {
    // The bucket of a statement among as many as the table uses rows.
    pub(crate) fn bucket(&self, statement: Statement) -> usize
        requires { 0 < capacity (view self.now) }
        ensures value { result ≡ bucket_of (capacity (view self.now)) statement }
        ensures within { result < capacity (view self.now) }
    {
        bucket_of(statement, self.capacity())
    }

    // The last taken row of a bucket, or none. A head counts only where it names a taken row of its own bucket, so that lent memory
    // need not be cleared first.
    pub(crate) fn last_in(&self, bucket: usize) -> Option<u32>
        requires { bucket < capacity (view self.now) }
        ensures { result ≡ last_in (bucket_at (capacity (view self.now)) self.now.rows.now) bucket self.now.len }
    {
        let head = self.rows[bucket].index.head;
        let at = head as usize;
        if at < self.len && self.bucket(self.rows[at].statement) == bucket {
            Some(head)
        } else {
            None
        }
    }
}
