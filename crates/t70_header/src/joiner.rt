//! Blocks that are joined to one TPDU.

ghost use Rattle.std.specs.Prelude.{◌≡◌, []};
ghost use Rattle.std.specs.Borrow.{sem};
ghost use Rattle.t70_header.specs.Joining.{block_step, fault_of_header};
ghost use Rattle.t70_header.specs.Blocks.{more_of};

use crate::fault::BlockFault;
use std::marker::Model;

// The greatest number of octets that are joined.
const LIMIT: usize = 1_024;

/// Joins the blocks of a TPDU in a buffer of its own, which takes no memory elsewhere. Contracts see
/// it as the octets that wait for their last block.
#[derive(Drop)]
pub struct Joiner {
    len: usize,
    buffer: [u8; 1_024],
}

impl Model for Joiner {
    ghost use Rattle.std.specs.Prelude.{ℕ, List, take, ◌≤◌};

    ghost Value = { List ℕ };

    ghost view = { λ j. take j.len j.buffer };

    ghost invariant = { λ j. j.len ≤ 1024 };
}

impl Joiner {
    ghost use Rattle.t70_header.specs.Resting.{LeavesJoinerAs, LendsAnswerOctets};

    /// A joiner that holds no octets.
    pub fn new() -> Joiner
        ensures { result ≡ [] }
    {
        Joiner {
            len: 0,
            buffer: [0; 1_024],
        }
    }

    /// Adds a block: lends the whole TPDU where it was the last block, from the block itself where that is all of it, and answers None
    /// exactly where more blocks follow. After a whole TPDU and after a fault the joiner holds no octets.
    pub fn add<'a>(&'a mut self, block: &'a [u8]) -> Result<Option<&'a [u8]>, BlockFault>
        ensures* after { sem 𝓛 (LeavesJoinerAs self.entry (block_step self.old block.now).0) }
        ensures gives { LendsAnswerOctets result (block_step self.old block.now).1 }
    {
        let Some(more) = more_follows(block) else {
            self.len = 0;
            return Err(header_fault(block));
        };
        let carried = &block[2..];
        let end = self.len + carried.len();
        if end > LIMIT {
            self.len = 0;
            return Err(BlockFault::Long(end));
        }
        if !more && self.len == 0 {
            return Ok(Some(carried));
        }
        self.buffer[self.len..end].copy_from_slice(carried);
        if more {
            self.len = end;
            return Ok(None);
        }
        self.len = 0;
        Ok(Some(&self.buffer[..end]))
    }
}

fn more_follows(block: &[u8]) -> Option<bool>
    ensures { result ≡ more_of block.now }
{
    match block {
        [0x01, 0x00, ..] => Some(false),
        [0x01, 0x80, ..] => Some(true),
        _ => None,
    }
}

fn header_fault(block: &[u8]) -> BlockFault
    ensures { result ≡ fault_of_header block.now }
{
    BlockFault::Header {
        found: block.len(),
        first: block.first().copied().unwrap_or(0),
        second: block.get(1).copied().unwrap_or(0),
    }
}
