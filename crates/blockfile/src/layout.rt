// The layout of a block, all but its sum.
ghost use Rattle.std.specs.Prelude.{◌≤◌};
ghost use Rattle.standpoint.specs.Lists.{Tells};
ghost use Rattle.blockfile.specs.Layout.{Zeros, Headed, FirstFilled, Tails, LaterFilled, LaidOut};

// Whether all but the sum is as it has to be in the block of this number.
pub(crate) fn is_laid_out(block: &[u8; 512], kind_byte: u8, number: u16) -> bool
    ensures { Tells result (LaidOut kind_byte number block.now) }
{
    if !is_headed(block, kind_byte, number) {
        return false;
    }
    if number == 0 {
        is_first_filled(block)
    } else {
        is_later_filled(block)
    }
}

fn is_headed(block: &[u8; 512], kind_byte: u8, number: u16) -> bool
    ensures { Tells result (Headed kind_byte number block.now) }
{
    block.starts_with(b"SPLV")
        && block[4] == kind_byte
        && u16::from_be_bytes([block[6], block[7]]) == number
}

fn is_first_filled(block: &[u8; 512]) -> bool
    ensures { Tells result (FirstFilled block.now) }
{
    block[5] == 0 && is_unused(block, 12)
}

fn is_later_filled(block: &[u8; 512]) -> bool
    ensures { Tells result (LaterFilled block.now) }
{
    let count = usize::from(block[5]);
    count <= 41 && are_tails_zero(block, count) && is_unused(block, 8 + 12 * count)
}

// Whether the last two bytes of each record are 0.
fn are_tails_zero(block: &[u8; 512], count: usize) -> bool
    requires { count ≤ 41 }
    ensures { Tells result (Tails block.now count) }
{
    (0..count).all(|k| block[18 + 12 * k] == 0 && block[19 + 12 * k] == 0)
}

// Whether every byte from `from` on and before the sum is 0.
fn is_unused(block: &[u8; 512], from: usize) -> bool
    requires { from ≤ 508 }
    ensures { Tells result (Zeros block.now from 508) }
{
    block[from..508].iter().all(|byte| *byte == 0)
}
