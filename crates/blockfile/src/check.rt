// Whether a file is sound, and else its first fault.
ghost use Rattle.std.specs.Prelude.{◌≡◌, ◌+◌, ◌*◌, ◌≤◌, length, is_ok, MatchResult};
ghost use Rattle.standpoint.specs.Lists.{Tells};
ghost use Rattle.standpoint.specs.Sizes.{InRange};
ghost use Rattle.standpoint.specs.declared.refusal.Refusal.TheVariants.{SizesOutOfRange};
ghost use Rattle.blockfile.specs.Layout.{block_of, sizes_in, SoundBlock, Sound, Whole, NotWhole};
ghost use Rattle.blockfile.specs.Faults.{BlockFaulty, BlocksChecked, SizesFaulty, FileChecked};
ghost use Rattle.blockfile.specs.declared.fault.LoadFault.TheVariants.{Length};

use crate::blocks::Block;
use crate::fault::{BlockFault, LoadFault};
use crate::stored::StoredKind;
use standpoint::Sizes;

// The sizes of a sound file of this kind, or its first fault: length, then blocks in order, then sizes.
pub fn check_file<K: StoredKind>(file: &[u8]) -> Result<Sizes, LoadFault>
    ensures fault { FileChecked K.StoredKind.KIND_BYTE file.now result }
    ensures sound { Tells (is_ok result) (Sound K.StoredKind.KIND_BYTE file.now) }
{
    check_blocks::<K>(file)?;
    Ok(check_sizes(file)?)
}

// Checks each block in order and answers how many there are.
pub(crate) fn check_blocks<K: StoredKind>(file: &[u8]) -> Result<u16, LoadFault>
    ensures { BlocksChecked K.StoredKind.KIND_BYTE file.now result }
{
    let count = count_blocks(file)?;
    // By number, which stands in the block and is tested there.
    for number in 0..count {
        check_block(Block { file, number }, K::KIND_BYTE)?;
    }
    Ok(count)
}

fn count_blocks(file: &[u8]) -> Result<u16, LoadFault>
    ensures { MatchResult result (λ n. Whole file.now n) (λ f. (f ≡ Length) × NotWhole file.now) }
{
    let length = file.len();
    if length % 512 != 0 || length == 0 || length > 65_536 {
        return Err(LoadFault::Length);
    }
    Ok((length / 512) as u16)
}

// Checks a whole block: its sum first. The kind is told by its byte, which is all of it that a block has.
fn check_block(block: Block<'_>, kind_byte: u8) -> Result<(), BlockFault>
    ensures { let bytes = block_of block.entry.file.now block.entry.number in
        MatchResult result
        (λ _. SoundBlock kind_byte block.entry.number bytes)
        (λ f. BlockFaulty kind_byte block.entry.number bytes f) }
{
    let number = block.number;
    if !block.is_summed() {
        return Err(BlockFault::Sum { block: number });
    }
    if !block.is_laid_out(kind_byte) {
        return Err(BlockFault::Layout { block: number });
    }
    Ok(())
}

fn check_sizes(file: &[u8]) -> Result<Sizes, BlockFault>
    requires { 512 ≤ length file.now }
    ensures { MatchResult result
        (λ n. (n ≡ sizes_in file.now) × InRange (sizes_in file.now))
        (λ f. SizesFaulty file.now f) }
{
    let sizes = Block { file, number: 0 }.sizes();
    sizes.check().map_err(BlockFault::Begin)?;
    Ok(sizes)
}
