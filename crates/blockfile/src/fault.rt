// Why a load stops, and where.
ghost use Rattle.std.specs.Prelude.{◌≡◌};
ghost use Rattle.blockfile.specs.Faults.{report_of};
ghost use Rattle.blockfile.specs.declared.fault.BlockFault.TheVariants.{InRecord};
ghost use Rattle.blockfile.specs.declared.fault.LoadFault.TheVariants.{InBlock};

use standpoint::Refusal;

// What stops a load at a record, with its block and its place there, both from 0.
#[derive(Clone, Copy)]
pub enum RecordFault {
    // The code is no grade.
    Code {
        block: u16,
        place: u16,
    },
    // The statement was not accepted.
    Add {
        block: u16,
        place: u16,
        why: Refusal,
    },
}

// What stops a load at a block.
#[derive(Clone, Copy)]
pub enum BlockFault {
    // The sum differs.
    Sum { block: u16 },
    // The mark, kind byte, number, count or an unused byte is wrong.
    Layout { block: u16 },
    // Begin refused the sizes of block 0.
    Begin(Refusal),
    // A record of the block stopped the load.
    InRecord(RecordFault),
}

// What stops a load.
#[derive(Clone, Copy)]
pub enum LoadFault {
    // The file is not 1 to 128 whole blocks.
    Length,
    // A block stopped the load.
    InBlock(BlockFault),
}

// Both conversions are by hand, since contracts say what `?` makes of a fault.
impl From<RecordFault> for BlockFault {
    ghost from_gives = { λ f r. r ≡ InRecord f };

    fn from(fault: RecordFault) -> BlockFault {
        BlockFault::InRecord(fault)
    }
}

impl From<BlockFault> for LoadFault {
    ghost from_gives = { λ f r. r ≡ InBlock f };

    fn from(fault: BlockFault) -> LoadFault {
        LoadFault::InBlock(fault)
    }
}

// The layer that stopped a load.
#[derive(Clone, Copy)]
pub enum Layer {
    File,
    Block,
    Record,
}

// What is told of a fault: the refusal, the layer, and the block and the record's place in it, 0 if unused.
// Flat, as the fault's line is: it prints both numbers at each layer.
#[derive(Clone, Copy)]
pub struct FaultReport {
    pub why: Refusal,
    pub layer: Layer,
    pub block: u16,
    pub place: u16,
}

impl LoadFault {
    // What is told of the fault. A word of its own, since a report is no other form of the fault: it leaves the layers out.
    pub fn report(self) -> FaultReport
        ensures { result ≡ report_of self }
    {
        let (why, layer, block, place) = match self {
            LoadFault::Length => (Refusal::FileLength, Layer::File, 0, 0),
            LoadFault::InBlock(BlockFault::Sum { block }) => {
                (Refusal::SumDiffers, Layer::Block, block, 0)
            }
            LoadFault::InBlock(BlockFault::Layout { block }) => {
                (Refusal::BlockLayout, Layer::Block, block, 0)
            }
            LoadFault::InBlock(BlockFault::Begin(why)) => (why, Layer::Block, 0, 0),
            LoadFault::InBlock(BlockFault::InRecord(RecordFault::Code { block, place })) => {
                (Refusal::NoGrade, Layer::Record, block, place)
            }
            LoadFault::InBlock(BlockFault::InRecord(RecordFault::Add { block, place, why })) => {
                (why, Layer::Record, block, place)
            }
        };
        FaultReport {
            why,
            layer,
            block,
            place,
        }
    }
}
