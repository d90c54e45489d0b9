// The sum that guards a block.
ghost use Rattle.std.specs.Prelude.{◌≡◌, ◌≤◌, length};
ghost use Rattle.standpoint.specs.Lists.{Tells};
ghost use Rattle.blockfile.specs.Layout.{weighted, Summed};

// Each byte times its place, counted from 1.
fn weighted_sum(bytes: &[u8]) -> u32
    requires { length bytes.now ≤ 508 }
    ensures { result ≡ weighted 1 bytes.now }
{
    // A loop, since each product and the sum so far have a bound of their own.
    let mut sum = 0;
    for (i, byte) in bytes.iter().enumerate() {
        sum += u32::from(*byte) * (i as u32 + 1);
    }
    sum
}

// Whether the block's last four bytes hold the sum of the others.
pub(crate) fn is_summed(block: &[u8; 512]) -> bool
    ensures { Tells result (Summed block.now) }
{
    let sum = u32::from_be_bytes([block[508], block[509], block[510], block[511]]);
    weighted_sum(&block[0..508]) == sum
}
