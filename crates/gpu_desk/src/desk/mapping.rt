//! Calls that map blocks, and that report where they lie.

ghost use Rattle.std.specs.Prelude.{◌≡◌, false, Bool, length, Err, IfOk, IfErr, OnErr};
ghost use Rattle.gpu_desk.specs.Calls.{IsAsBefore, IsUnknown, KeepsDesk, MapDenied, Maps, RangeDenied, RangeTold, Told};
ghost use Rattle.gpu_desk.specs.Calls.{Unmaps, fault_of_map, object_to_unmap};

use super::Desk;
use super::granting::grant_of;
use crate::denial::denial_after;
use crate::{Denial, Fault, Grant, MapError, MemoryPropertyFlags, ObjectRange};
use gpu_alloc::MemoryBlock;
use gpu_alloc_types::MemoryObject;
use gpu_answers::{Answered, ObjectName, Question};
use gpu_session::passes_end;

/// The object that is unmapped with a block: its own, where the block is mapped.
fn object_to_unmap(block: &MemoryBlock<ObjectName>) -> Option<u64>
    ensures { result ≡ object_to_unmap block.now }
{
    if block.is_mapped() && !block.kind().is_shared() {
        Some(block.memory().object())
    } else {
        None
    }
}

impl Desk {
    /// Returns where the block of a key lies, and what is kept with it. It denies a key that has no live block with
    /// `Fault::UnknownName`.
    pub fn block(&self, key: u64) -> Result<Grant, Denial>
        ensures told { IfOk result (Told self.now key) }
        ensures denied { IfErr result (IsUnknown self.now key) }
    {
        match self.blocks.get(key) {
            Some(block) => Ok(grant_of(block, key, false, self.tag(key))),
            None => Err(Denial::Fault(Fault::UnknownName)),
        }
    }

    /// The first condition that the mapping of `size` bytes of a block misses, from `offset` on, in bytes from its
    /// start: `UnknownName` for a key that has no live block, `BadSize` for 0 bytes, `BadRange` for a range that ends
    /// past the block. `None` where it misses none: [`map`](Desk::map) then denies it for other reasons alone. It
    /// allocates nothing.
    pub fn map_fault(&self, key: u64, offset: u64, size: u64) -> Option<Fault>
        ensures { result ≡ fault_of_map self.now key offset size }
    {
        let Some(block) = self.blocks.get(key) else {
            return Some(Fault::UnknownName);
        };
        if size == 0 {
            return Some(Fault::BadSize);
        }
        if passes_end(offset, size, block.size()) {
            return Some(Fault::BadRange);
        }
        None
    }

    /// Maps `size` bytes of a block from `offset` on, in bytes from its start, as `MemoryBlock::map` does, in a run
    /// with these answers. It returns where they lie in its object.
    ///
    /// A block of a shared object needs no question, since the object was mapped whole when it was made. For any other,
    /// the question's range covers the bytes in whole atoms.
    ///
    /// It denies:
    ///
    /// - a mapping that misses a condition, with its first fault ([`map_fault`](Desk::map_fault))
    /// - `Fault::NoMemory` for want of memory for the answers
    /// - `Open`, with the question that has no answer
    /// - `Strayed`
    /// - `MapRefused`, with the block's error.
    ///
    /// Nothing has changed then. At most one question is asked, so none is open after an answer.
    #[tactic(auto, unfolding(crate::specs::Calls::MapDenied))]
    pub fn map(
        &mut self,
        key: u64,
        offset: u64,
        size: u64,
        answers: &[Answered],
    ) -> Result<ObjectRange, Denial>
        ensures mapped { IfOk result (Maps self.old key offset size answers.now self.new) }
        ensures denied { IfErr result (MapDenied self.old key offset size answers.now) }
        ensures asks { (question : Question) (own : Bool) → result ≡ Err (Denial.Open question own)
            → length answers.now ≡ 0 }
        ensures unchanged { OnErr result (IsAsBefore self.old self.new) }
        ensures keeps { KeepsDesk self.old self.new }
    {
        if let Some(fault) = self.map_fault(key, offset, size) {
            return Err(Denial::Fault(fault));
        }
        let Ok(()) = self.device.begin(answers) else {
            return Err(Denial::Fault(Fault::NoMemory));
        };
        let Some(block) = self.blocks.get_mut(key) else {
            unreachable!()
        };
        let answer = block.map(&mut self.device, offset, size as usize);
        let object = block.memory().object();
        match answer {
            Ok(mapping) => Ok(ObjectRange {
                object,
                offset: mapping.start,
                size: mapping.len,
            }),
            Err(refusal) => Err(denial_after(&self.device, false, Denial::MapRefused(refusal))),
        }
    }

    /// Unmaps a block, and returns the name of the object to unmap: `None` where the block was not mapped, or its
    /// object is shared and stays mapped. It allocates nothing.
    ///
    /// It denies a key that has no live block with `Fault::UnknownName`. Nothing has changed then.
    pub fn unmap(&mut self, key: u64) -> Result<Option<u64>, Denial>
        ensures unmapped { IfOk result (Unmaps self.old key self.new) }
        ensures denied { IfErr result (IsUnknown self.old key) }
        ensures unchanged { OnErr result (self.new ≡ self.old) }
        ensures keeps { KeepsDesk self.old self.new }
    {
        let Some(block) = self.blocks.get_mut(key) else {
            return Err(Denial::Fault(Fault::UnknownName));
        };
        let object = object_to_unmap(block);
        block.unmap(&mut self.device);
        Ok(object)
    }

    /// The range to flush after the host wrote `size` bytes of a block from `offset` on, in bytes from its start, or to
    /// invalidate before it reads them. It is the block's own rounded range (`MemoryBlock::rounded`), or 0 bytes where
    /// no flush is needed: the memory is coherent, or `size` is 0.
    ///
    /// It denies `Fault::UnknownName`, `BadRange` for a range that ends past the block, and `MapError::NonHostVisible`
    /// where the memory is not host-visible.
    pub fn range(&self, key: u64, offset: u64, size: u64) -> Result<ObjectRange, Denial>
        ensures told { IfOk result (RangeTold self.now key offset size) }
        ensures denied { IfErr result (RangeDenied self.now key offset size) }
    {
        let Some(block) = self.blocks.get(key) else {
            return Err(Denial::Fault(Fault::UnknownName));
        };
        if passes_end(offset, size, block.size()) {
            return Err(Denial::Fault(Fault::BadRange));
        }
        if !block.props().intersects(MemoryPropertyFlags::HOST_VISIBLE) {
            return Err(Denial::MapRefused(MapError::NonHostVisible));
        }
        let range = block.rounded(offset, size);
        let needed = size != 0 && block.props().is_non_coherent();
        Ok(ObjectRange {
            object: block.memory().object(),
            offset: range.offset,
            size: if needed { range.size } else { 0 },
        })
    }
}
