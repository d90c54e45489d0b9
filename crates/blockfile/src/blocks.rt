// A lent block file, read in place.
ghost use Rattle.std.specs.Prelude.{◌≡◌, ◌+◌, ◌*◌, ◌≤◌, length};
ghost use Rattle.standpoint.specs.Lists.{Tells};
ghost use Rattle.blockfile.specs.Layout.{block_of, record_of, code_of, count_in, statement_in, sizes_in, Summed, LaidOut};

use crate::layout::is_laid_out;
use crate::sum::is_summed;
use standpoint::{Sizes, Statement};

// A block of the lent file.
#[derive(Clone, Copy)]
pub struct Block<'a> {
    pub file: &'a [u8],
    pub number: u16,
    ghost inside: { 512 * (number + 1) ≤ length file.now },
}

// A record of the block.
#[derive(Clone, Copy)]
pub struct Record<'a> {
    pub block: Block<'a>,
    pub place: u16,
    ghost inside: { place ≤ 40 },
}

impl<'a> Block<'a> {
    // The bytes of the block.
    pub fn bytes(&self) -> &'a [u8; 512]
        ensures { result.now ≡ block_of self.now.file.now self.now.number }
    {
        let (blocks, _) = self.file.as_chunks::<512>();
        &blocks[usize::from(self.number)]
    }

    // Whether the block holds the sum of its bytes.
    pub fn is_summed(&self) -> bool
        ensures { Tells result (Summed (block_of self.now.file.now self.now.number)) }
    {
        is_summed(self.bytes())
    }

    // Whether all but the sum is as it has to be.
    pub fn is_laid_out(&self, kind_byte: u8) -> bool
        ensures { Tells result
            (LaidOut kind_byte self.now.number (block_of self.now.file.now self.now.number)) }
    {
        is_laid_out(self.bytes(), kind_byte, self.number)
    }

    // How many records the block says that it has.
    pub fn count(&self) -> u8
        ensures { result ≡ count_in self.now.file.now self.now.number }
    {
        self.bytes()[5]
    }

    // The sizes that block 0 states.
    pub fn sizes(&self) -> Sizes
        ensures { result ≡ sizes_in self.now.file.now }
    {
        Sizes {
            standpoints: u16::from(self.file[8]),
            concepts: u16::from(self.file[9]),
            roles: u16::from(self.file[10]),
            individuals: u16::from(self.file[11]),
        }
    }
}

impl<'a> Record<'a> {
    // The bytes of the record.
    pub fn bytes(&self) -> &'a [u8; 12]
        ensures { result.now
            ≡ record_of self.now.block.file.now self.now.block.number self.now.place }
    {
        let (records, _) = self.block.bytes()[8..].as_chunks::<12>();
        &records[usize::from(self.place)]
    }

    // The statement of the record.
    pub fn statement(&self) -> Statement
        ensures { result
            ≡ statement_in self.now.block.file.now self.now.block.number self.now.place }
    {
        let [shape, first, second, third, fourth, fifth, ..] = *self.bytes();
        Statement {
            shape,
            first: u16::from(first),
            second: u16::from(second),
            third: u16::from(third),
            fourth: u16::from(fourth),
            fifth: u16::from(fifth),
        }
    }

    // The code of the record's grade.
    pub fn code(&self) -> u32
        ensures { result
            ≡ code_of self.now.block.file.now self.now.block.number self.now.place }
    {
        let [_, _, _, _, _, _, a, b, c, d, ..] = *self.bytes();
        u32::from_be_bytes([a, b, c, d])
    }
}
