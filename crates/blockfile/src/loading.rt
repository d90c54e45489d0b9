// The load of a file into a reasoner.
ghost use Rattle.std.specs.Prelude.{◌≡◌, ◌≤◌, OnOk};
ghost use Rattle.saturation.specs.Tables.{view, capacity, OverSame};
ghost use Rattle.saturation.specs.Memory.{Leaves};
ghost use Rattle.blockfile.specs.declared.fault.RecordFault.{RecordFault};
ghost use Rattle.blockfile.specs.declared.fault.BlockFault.TheVariants.{InRecord};
ghost use Rattle.blockfile.specs.declared.fault.LoadFault.TheVariants.{InBlock};
ghost use Rattle.blockfile.specs.Layout.{count_in};
ghost use Rattle.blockfile.specs.Loads.{RecordLoaded, BlockLoaded, Loaded, AcceptsBefore, AcceptsAll, block_at, place_at};

use crate::blocks::{Block, Record};
use crate::check::check_blocks;
use crate::fault::{BlockFault, LoadFault, RecordFault};
use crate::stored::StoredKind;
use reasoner::{add, begin};
use saturation::Table;

// Checks every block, begins with the sizes of block 0 and adds the records in order, up to the first fault.
pub fn load<K: StoredKind>(
    reasoner: &mut Table<'_, K::Grade>,
    kind: &K,
    file: &[u8],
) -> Result<(), LoadFault>
    ensures memory { OverSame reasoner.old reasoner.new }
    ensures long { capacity (view reasoner.new) ≡ capacity (view reasoner.old) }
    ensures leaves { Leaves (view reasoner.old) (view reasoner.new) }
    ensures answer { Loaded K.StoredKind.decoded file.now (K.Kind.algebra kind.now) K.StoredKind.KIND_BYTE reasoner.old reasoner.new result }

    // What follows in the words of a run.
    ensures all { OnOk result (AcceptsAll K.StoredKind.decoded file.now (K.Kind.algebra kind.now) reasoner.new) }
    ensures stopped { (f : RecordFault) → result ≡ Err (InBlock (InRecord f)) →
        AcceptsBefore K.StoredKind.decoded file.now (K.Kind.algebra kind.now) (block_at f) (place_at f) reasoner.new }
{
    let blocks = check_blocks::<K>(file)?;
    let sizes = Block { file, number: 0 }.sizes();
    begin(reasoner, kind, sizes).map_err(BlockFault::Begin)?;
    // By number, which the fault names.
    for number in 1..blocks {
        load_block(reasoner, kind, Block { file, number })?;
    }
    Ok(())
}

// Adds the records of a block in order.
fn load_block<K: StoredKind>(
    reasoner: &mut Table<'_, K::Grade>,
    kind: &K,
    block: Block<'_>,
) -> Result<(), BlockFault>
    requires { count_in block.file.now block.number ≤ 41 }
    ensures memory { OverSame reasoner.old reasoner.new }
    ensures long { capacity (view reasoner.new) ≡ capacity (view reasoner.old) }
    ensures answer { BlockLoaded K.StoredKind.decoded block.entry.file.now (K.Kind.algebra kind.now) block.entry.number reasoner.old reasoner.new result }
{
    let count = u16::from(block.count());
    // By place, which the fault names.
    for place in 0..count {
        load_record(reasoner, kind, Record { block, place })?;
    }
    Ok(())
}

// Adds one record: its code is read first.
fn load_record<K: StoredKind>(
    reasoner: &mut Table<'_, K::Grade>,
    kind: &K,
    at: Record<'_>,
) -> Result<(), RecordFault>
    ensures memory { OverSame reasoner.old reasoner.new }
    ensures long { capacity (view reasoner.new) ≡ capacity (view reasoner.old) }
    ensures answer { let block = at.entry.block in
        RecordLoaded K.StoredKind.decoded block.file.now (K.Kind.algebra kind.now) block.number at.entry.place reasoner.old reasoner.new result }
{
    let block = at.block.number;
    let place = at.place;
    let Ok(grade) = K::decode(at.code()) else {
        return Err(RecordFault::Code { block, place });
    };
    add(reasoner, kind, at.statement(), grade).map_err(|why| RecordFault::Add { block, place, why })
}
