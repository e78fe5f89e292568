//! A block of memory, which must be returned. The function that takes one apart is not a method: `gpu_alloc`, where
//! users find the type, does not export it.

ghost use Rattle.std.specs.Prelude.{◌≡◌, ℕ, ◌+◌, ◌<◌, ◌≤◌, true, false, None, Some, length, List, [], ◌∷◌, is_some, cond};
ghost use Rattle.std.specs.Prelude.{IfOk, IfErr, OnOk, OnErr};
ghost use Rattle.std.specs.Result.{IsOk};
ghost use Rattle.gpu_alloc_types.specs.Flags.{property_bits};
ghost use Rattle.gpu_alloc_types.specs.Properties.{are_non_coherent};
ghost use Rattle.gpu_alloc_types.specs.Device.{Asked, Changes, HeldWith, IsMapped, IsFlushed, IsInvalidated, range_of};
ghost use Rattle.gpu_alloc_types.specs.Device.Event.{Mapped, Unmapped, Flushed, Invalidated};
ghost use Rattle.gpu_alloc_block.specs.Agreement.{BlockAgrees, KeepsAgreement};
ghost use Rattle.gpu_alloc_block.specs.Bytes.{AsksToWrite, EndsWrite, IsWrittenThrough, IsPartlyWritten, WritesWithin};
ghost use Rattle.gpu_alloc_block.specs.Bytes.{AsksToRead, EndsRead, IsReadThrough, IsPartlyRead, ReadsWithin};
ghost use Rattle.gpu_alloc_block.specs.Bytes.{ChangesBytes, IsOpenForBytes, putting, getting, invalidate_fails, where_non_coherent};
ghost use Rattle.gpu_alloc_block.specs.Contents.{HasSameBytes, HasSameDeviceBytes, Stores};
ghost use Rattle.gpu_alloc_block.specs.InHand.{IsSameBlock};
ghost use Rattle.gpu_alloc_block.specs.Kept.{KeepsInHand};
ghost use Rattle.gpu_alloc_block.specs.Mapped.{AsksToMap, ObjectsMapped, ObjectsUnmapped, IsClosed, mapping_of, of_own};
ghost use Rattle.gpu_alloc_block.specs.Mapped.{refusal, unmapping};
ghost use Rattle.gpu_alloc_block.specs.Ranges.{HasEnd, atom_end, rounded_range};
ghost use Rattle.gpu_alloc_block.specs.State.{Block, is_shared};

use crate::kept_mapping::KeptMapping;
use crate::kept_props::KeptProps;
use gpu_alloc_base::MapError;
use gpu_alloc_types::{
    DeviceMapError, MappedMemoryRange, MemoryDevice, MemoryObject, MemoryPropertyFlags,
    ObjectDevice, OutOfMemory,
};
use std::marker::Model;

/// What an object is held for.
#[derive(Clone, Copy, Debug, PartialEq, Eq)]
pub enum Kind {
    /// One block, which is the whole object.
    Dedicated,

    /// One block, in an object that the allocator did not make.
    Imported,

    /// The blocks of a buddy allocator.
    BuddyChunk,

    /// The blocks of a free list, whose chunks are numbered.
    FreeListChunk(u64),

    /// Blocks as long as asked, in whole grains (`Sharing::Fit`).
    FitChunk,
}

impl Kind {
    /// Whether many blocks may share an object that is held for this.
    #[inline(always)]
    pub fn is_shared(self) -> bool
        ensures { result ≡ is_shared self }
    {
        match self {
            Kind::Dedicated | Kind::Imported => false,
            Kind::BuddyChunk | Kind::FreeListChunk(_) | Kind::FitChunk => true,
        }
    }
}

/// What a block has mapped: a range of its object, in bytes.
#[derive(Clone, Copy, Debug, PartialEq, Eq, Hash)]
pub struct Mapping {
    /// Where it starts in the object, in bytes.
    pub start: u64,

    /// Its length, in bytes.
    pub len: u64,
}

/// A block of memory: a span of a memory object. It cannot be dropped: it is returned to its allocator.
pub struct MemoryBlock<M: MemoryObject> {
    memory: M,
    offset: u64,
    size: u64,
    memory_type: u32,
    props: KeptProps,
    // The unit of the block's flushes, in bytes. A block's calls do not see the device's properties.
    atom: u64,
    kind: Kind,
    mapping: KeptMapping,
    // The key under which its store has it. Contracts don't mention it, since the store confirms it.
    key: usize,
}

impl<M: MemoryObject> Model for MemoryBlock<M> {
    ghost use Rattle.gpu_alloc_block.specs.State.{Block};
    ghost use Rattle.gpu_alloc_block.specs.Codes.{block_code};

    ghost Value = { Block };

    ghost coded = { block_code };

    ghost view = { λ b. record {
      object = M.object b.memory;
      offset = b.offset;
      size = b.size;
      memory_type = b.memory_type;
      props = b.props;
      atom = b.atom;
      kind = b.kind;
      mapping = b.mapping;
    } };

    ghost use Rattle.gpu_alloc_block.specs.Ranges.{HasEnd};

    ghost invariant = { λ b. HasEnd b.offset b.size b.atom };
}

impl<M: MemoryObject> MemoryBlock<M> {
    /// An unmapped block, which its store has under this key. It is public for the crate above, whose stores confirm
    /// each block: users get theirs from a `GpuAllocator`.
    #[inline(always)]
    pub fn new(
        memory: M,
        offset: u64,
        size: u64,
        memory_type: u32,
        props: MemoryPropertyFlags,
        atom: u64,
        kind: Kind,
        key: usize,
    ) -> Self
        requires { HasEnd offset size atom }
        ensures { result ≡ record {
          object = M.object memory;
          offset = offset;
          size = size;
          memory_type = memory_type;
          props = property_bits props;
          atom = atom;
          kind = kind;
          mapping = None;
        } }
    {
        MemoryBlock {
            memory,
            offset,
            size,
            memory_type,
            props: KeptProps::of(props),
            atom,
            kind,
            mapping: KeptMapping::none(),
            key,
        }
    }

    /// A handle of the block's memory object.
    #[inline(always)]
    pub fn memory(&self) -> &M
        ensures { M.object result.now ≡ self.now.object }
    {
        &self.memory
    }

    /// Where the block starts in its object, in bytes.
    #[inline(always)]
    pub fn offset(&self) -> u64
        ensures { result ≡ self.now.offset }
    {
        self.offset
    }

    /// The block's size, in bytes: at least what was asked for.
    #[inline(always)]
    pub fn size(&self) -> u64
        ensures { result ≡ self.now.size }
    {
        self.size
    }

    /// The properties of its memory type.
    #[inline(always)]
    pub fn props(&self) -> MemoryPropertyFlags
        ensures { property_bits result ≡ self.now.props }
    {
        self.props.get()
    }

    /// The index of its memory type.
    #[inline(always)]
    pub fn memory_type(&self) -> u32
        ensures { result ≡ self.now.memory_type }
    {
        self.memory_type
    }

    /// The unit of the block's flushes and invalidates, in bytes: Vulkan's `nonCoherentAtomSize`, or 1 where its memory
    /// needs none.
    #[inline(always)]
    pub fn atom(&self) -> u64
        ensures atom { result ≡ self.now.atom }
        ensures some { 0 < result }
    {
        self.atom
    }

    /// Whether the block is mapped.
    #[inline(always)]
    pub fn is_mapped(&self) -> bool
        ensures { result ≡ is_some self.now.mapping }
    {
        self.mapping.is_some()
    }

    /// The range of its object that the block has mapped, in bytes, or `None` while it is unmapped.
    #[inline(always)]
    pub fn mapping(&self) -> Option<Mapping>
        ensures { result ≡ self.now.mapping }
    {
        self.mapping.get()
    }

    /// Maps `size` bytes of the block for the host, from `offset` on, in bytes from the block's start, until
    /// [`unmap`](MemoryBlock::unmap). It returns where they lie in the block's object.
    ///
    /// Where the object is the block's own (the block is dedicated or imported), the device maps it. The mapped range
    /// begins and ends with whole atoms, cut at the block's end: the bytes that a flush of the range needs (the Vulkan
    /// specification's rule on `VkMappedMemoryRange`). A shared object was mapped whole when it was made. So the device
    /// is not called, and an unmapped block in host-visible memory can always be mapped.
    ///
    /// The range must be at least 1 byte and lie inside the block. The device must hold the block's object as the
    /// allocator left it (`BlockAgrees`, which each grant states). `NonHostVisible` where the block's memory is not
    /// host-visible, then `AlreadyMapped` where the block is mapped: the device is not called in either case.
    /// `OutOfDeviceMemory`, `OutOfHostMemory` and `MapFailed` are the device's answers. After an error the block and
    /// the device's objects are unchanged.
    pub fn map<D: ObjectDevice<M>>(
        &mut self,
        device: &mut D,
        offset: u64,
        size: usize,
    ) -> Result<Mapping, MapError>
        requires nonempty { 0 < size }
        requires inside { offset + size ≤ self.old.size }
        requires agrees { BlockAgrees self.old (D.properties device.old) (D.objects device.old) }

        ensures asked { Asked D.step device.old device.new (AsksToMap self.old offset size result) }
        ensures objects { ObjectsMapped self.old (rounded_range self.old offset size) result (D.objects device.old)
            (D.objects device.new) }
        ensures mapping { IfOk result (λ mapping. mapping ≡ mapping_of self.old offset size) }
        ensures mapped { OnOk result (self.new ≡ record self.old { mapping = Some (mapping_of self.old offset size) }) }
        ensures refused { OnErr result (self.new ≡ self.old) }
        ensures sure { refusal self.old ≡ None → is_shared self.old.kind ≡ true → IsOk result }
        ensures properties { D.properties device.new ≡ D.properties device.old }
        ensures agrees { BlockAgrees self.new (D.properties device.new) (D.objects device.new) }
        ensures keeps { KeepsAgreement self.old (D.properties device.old) (D.objects device.old)
            (D.properties device.new) (D.objects device.new) }
        ensures same { IsSameBlock self.old self.new }
        ensures bytes { (block : Block) → HasSameBytes block (D.objects device.old) (D.objects device.new) }
        ensures in_hand { KeepsInHand self.old (D.properties device.old) (D.objects device.old) self.new
            (D.properties device.new) (D.objects device.new) }
    {
        if let Some(refusal) = self.refusal() {
            return Err(refusal);
        }
        let len = size as u64;
        match self.open(device, offset, len) {
            Ok(()) => {
                let start = self.offset + offset;
                let mapping = Mapping { start, len };
                self.mapping = KeptMapping::of(mapping);
                Ok(mapping)
            }
            Err(refusal) => Err(MapError::from(refusal)),
        }
    }

    /// Unmaps the block, and returns whether it was mapped. Where the object is the block's own, the device unmaps it.
    /// No byte changes, and it cannot fail.
    ///
    /// The device must hold the block's object as the allocator and the block's calls left it (`BlockAgrees`).
    #[tactic(auto, unfolding(crate::specs::Agreement::BlockAgrees))]
    pub fn unmap<D: ObjectDevice<M>>(&mut self, device: &mut D) -> bool
        requires { BlockAgrees self.old (D.properties device.old) (D.objects device.old) }

        ensures answer { result ≡ is_some self.old.mapping }
        ensures unmapped { self.new ≡ record self.old { mapping = None } }
        ensures asked { Asked D.step device.old device.new (λ es. es ≡ unmapping self.old) }
        ensures objects { ObjectsUnmapped self.old (D.objects device.old) (D.objects device.new) }
        ensures properties { D.properties device.new ≡ D.properties device.old }
        ensures agrees { BlockAgrees self.new (D.properties device.new) (D.objects device.new) }
        ensures keeps { KeepsAgreement self.old (D.properties device.old) (D.objects device.old)
            (D.properties device.new) (D.objects device.new) }
        ensures same { IsSameBlock self.old self.new }
        ensures bytes { (block : Block) → HasSameBytes block (D.objects device.old) (D.objects device.new) }
        ensures in_hand { KeepsInHand self.old (D.properties device.old) (D.objects device.old) self.new
            (D.properties device.new) (D.objects device.new) }
    {
        if !self.mapping.is_some() {
            return false;
        }
        self.close(device);
        self.mapping = KeptMapping::none();
        true
    }

    /// Writes bytes to the block from `offset` on, in bytes from the block's start, so that the device sees them. In
    /// non-coherent memory it flushes their range in whole atoms, cut at the block's end (the Vulkan specification's
    /// rule on `VkMappedMemoryRange`).
    ///
    /// The block must be unmapped. Where its object is its own, the call maps it and always unmaps it again. With an
    /// empty slice the device is not called.
    ///
    /// The range must lie inside the block. The device must hold the block's object as the allocator left it
    /// (`BlockAgrees`). `NonHostVisible` where the block's memory is not host-visible, then `AlreadyMapped` where the
    /// block is mapped: the device is not called in either case. `OutOfDeviceMemory`, `OutOfHostMemory` and `MapFailed`
    /// are the device's answers.
    ///
    /// After a refused mapping no byte has changed. After a refused flush the host's bytes are the data, and each of
    /// the device's bytes of the flushed range is its old value or the host's. In every case, all bytes outside the
    /// flushed range are unchanged, and so are the host's bytes outside the data's own range.
    pub fn write_bytes<D: MemoryDevice<M>>(
        &mut self,
        device: &mut D,
        offset: u64,
        bytes: &[u8],
    ) -> Result<(), MapError>
        requires inside { offset + length bytes.now ≤ self.old.size }
        requires agrees { BlockAgrees self.old (D.properties device.old) (D.objects device.old) }

        ensures asked { OnOk result (Asked D.step device.old device.new (AsksToWrite self.old offset bytes.now)) }
        ensures written { OnOk result (ChangesBytes self.old (length bytes.now)
            (IsWrittenThrough self.old offset bytes.now) (D.objects device.old) (D.objects device.new)) }
        ensures stored { OnOk result (Stores self.old offset bytes.now (D.objects device.new)) }
        ensures refused { IfErr result (λ e. Asked D.step device.old device.new
            (EndsWrite self.old offset bytes.now e (D.objects device.old) (D.objects device.new))) }
        ensures within { Changes (WritesWithin self.old offset (length bytes.now)) (D.objects device.old)
            self.old.object (D.objects device.new) }
        ensures empty { refusal self.old ≡ None → length bytes.now ≡ 0 → IsOk result }
        ensures sure { refusal self.old ≡ None → is_shared self.old.kind ≡ true
            → are_non_coherent self.old.props ≡ false → IsOk result }
        ensures block { self.new ≡ self.old }
        ensures properties { D.properties device.new ≡ D.properties device.old }
        ensures agrees { BlockAgrees self.new (D.properties device.new) (D.objects device.new) }
        ensures keeps { KeepsAgreement self.old (D.properties device.old) (D.objects device.old)
            (D.properties device.new) (D.objects device.new) }
        ensures same { IsSameBlock self.old self.new }
        ensures in_hand { KeepsInHand self.old (D.properties device.old) (D.objects device.old) self.new
            (D.properties device.new) (D.objects device.new) }
    {
        self.keeps_end();
        self.write(device, offset, bytes)
    }

    /// Reads bytes of the block from `offset` on, in bytes from the block's start, as the device sees them. In
    /// non-coherent memory it first invalidates their range in whole atoms, cut at the block's end (the Vulkan
    /// specification's rule on `VkMappedMemoryRange`).
    ///
    /// The block must be unmapped. Where its object is its own, the call maps it and always unmaps it again. With an
    /// empty slice the device is not called.
    ///
    /// The conditions and errors are those of [`write_bytes`](MemoryBlock::write_bytes). After an error `bytes` is
    /// unchanged. After a refused invalidate each of the host's bytes of the range is its old value or the device's. In
    /// every case, the host's bytes outside that range and all of the device's bytes are unchanged.
    pub fn read_bytes<D: MemoryDevice<M>>(
        &mut self,
        device: &mut D,
        offset: u64,
        bytes: &mut [u8],
    ) -> Result<(), MapError>
        requires inside { offset + length bytes.old ≤ self.old.size }
        requires agrees { BlockAgrees self.old (D.properties device.old) (D.objects device.old) }

        ensures asked { OnOk result (Asked D.step device.old device.new (AsksToRead self.old offset bytes.new)) }
        ensures read { OnOk result (ChangesBytes self.old (length bytes.old)
            (IsReadThrough self.old offset bytes.new) (D.objects device.old) (D.objects device.new)) }
        ensures told { OnOk result (Stores self.old offset bytes.new (D.objects device.old)) }
        ensures refused { IfErr result (λ e. Asked D.step device.old device.new
            (EndsRead self.old offset (length bytes.old) e (D.objects device.old) (D.objects device.new))) }
        ensures bytes { OnErr result (bytes.new ≡ bytes.old) }
        ensures within { Changes (ReadsWithin self.old offset (length bytes.old)) (D.objects device.old)
            self.old.object (D.objects device.new) }
        ensures unmoved { (block : Block) → HasSameDeviceBytes block (D.objects device.old) (D.objects device.new) }
        ensures empty { refusal self.old ≡ None → length bytes.old ≡ 0 → IsOk result }
        ensures sure { refusal self.old ≡ None → is_shared self.old.kind ≡ true
            → are_non_coherent self.old.props ≡ false → IsOk result }
        ensures block { self.new ≡ self.old }
        ensures properties { D.properties device.new ≡ D.properties device.old }
        ensures agrees { BlockAgrees self.new (D.properties device.new) (D.objects device.new) }
        ensures keeps { KeepsAgreement self.old (D.properties device.old) (D.objects device.old)
            (D.properties device.new) (D.objects device.new) }
        ensures same { IsSameBlock self.old self.new }
        ensures in_hand { KeepsInHand self.old (D.properties device.old) (D.objects device.old) self.new
            (D.properties device.new) (D.objects device.new) }
    {
        self.keeps_end();
        self.read(device, offset, bytes)
    }

    /// What its object is held for. It is public for the crate above.
    #[inline(always)]
    pub fn kind(&self) -> Kind
        ensures { result ≡ self.now.kind }
    {
        self.kind
    }

    /// The key under which its store has it, which the store confirms. It is public for the crate above.
    #[inline(always)]
    pub fn key(&self) -> usize {
        self.key
    }

    /// A lemma about every block: does nothing at run time.
    pub(crate) fn keeps_end(&self)
        ensures { HasEnd self.now.offset self.now.size self.now.atom }
    {
        let _ = &self.key;
    }

    /// Why the block itself refuses to be mapped.
    fn refusal(&self) -> Option<MapError>
        ensures { result ≡ refusal self.now }
    {
        if !self.props().intersects(MemoryPropertyFlags::HOST_VISIBLE) {
            Some(MapError::NonHostVisible)
        } else if self.mapping.is_some() {
            Some(MapError::AlreadyMapped)
        } else {
            None
        }
    }

    /// Writes bytes, with that part of the call's contract which says how it ended.
    fn write<D: MemoryDevice<M>>(
        &self,
        device: &mut D,
        offset: u64,
        bytes: &[u8],
    ) -> Result<(), MapError>
        requires inside { offset + length bytes.now ≤ self.now.size }
        requires agrees { BlockAgrees self.now (D.properties device.old) (D.objects device.old) }
        ensures asked { OnOk result (Asked D.step device.old device.new (AsksToWrite self.now offset bytes.now)) }
        ensures written { OnOk result (ChangesBytes self.now (length bytes.now)
            (IsWrittenThrough self.now offset bytes.now) (D.objects device.old) (D.objects device.new)) }
        ensures refused { IfErr result (λ e. Asked D.step device.old device.new
            (EndsWrite self.now offset bytes.now e (D.objects device.old) (D.objects device.new))) }
        ensures within { Changes (WritesWithin self.now offset (length bytes.now)) (D.objects device.old)
            self.now.object (D.objects device.new) }
        ensures empty { refusal self.now ≡ None → length bytes.now ≡ 0 → IsOk result }
        ensures sure { refusal self.now ≡ None → is_shared self.now.kind ≡ true
            → are_non_coherent self.now.props ≡ false → IsOk result }
        ensures properties { D.properties device.new ≡ D.properties device.old }
    {
        if let Some(refusal) = self.refusal() {
            return Err(refusal);
        }
        if bytes.is_empty() {
            return Ok(());
        }
        match self.open(device, offset, bytes.len() as u64) {
            Ok(()) => {
                let answer = self.put(device, offset, bytes);
                self.close(device);
                match answer {
                    Ok(()) => Ok(()),
                    Err(cause) => Err(MapError::from(cause)),
                }
            }
            Err(cause) => Err(MapError::from(cause)),
        }
    }

    /// Reads bytes, with that part of the call's contract which says how it ended.
    fn read<D: MemoryDevice<M>>(
        &self,
        device: &mut D,
        offset: u64,
        bytes: &mut [u8],
    ) -> Result<(), MapError>
        requires inside { offset + length bytes.old ≤ self.now.size }
        requires agrees { BlockAgrees self.now (D.properties device.old) (D.objects device.old) }
        ensures asked { OnOk result (Asked D.step device.old device.new (AsksToRead self.now offset bytes.new)) }
        ensures read { OnOk result (ChangesBytes self.now (length bytes.old)
            (IsReadThrough self.now offset bytes.new) (D.objects device.old) (D.objects device.new)) }
        ensures refused { IfErr result (λ e. Asked D.step device.old device.new
            (EndsRead self.now offset (length bytes.old) e (D.objects device.old) (D.objects device.new))) }
        ensures bytes { OnErr result (bytes.new ≡ bytes.old) }
        ensures within { Changes (ReadsWithin self.now offset (length bytes.old)) (D.objects device.old)
            self.now.object (D.objects device.new) }
        ensures empty { refusal self.now ≡ None → length bytes.old ≡ 0 → IsOk result }
        ensures sure { refusal self.now ≡ None → is_shared self.now.kind ≡ true
            → are_non_coherent self.now.props ≡ false → IsOk result }
        ensures properties { D.properties device.new ≡ D.properties device.old }
    {
        if let Some(refusal) = self.refusal() {
            return Err(refusal);
        }
        let len = bytes.len() as u64;
        if len == 0 {
            return Ok(());
        }
        match self.open(device, offset, len) {
            Ok(()) => {
                let answer = self.get(device, offset, bytes);
                self.close(device);
                match answer {
                    Ok(()) => Ok(()),
                    Err(cause) => Err(MapError::from(cause)),
                }
            }
            Err(cause) => Err(MapError::from(cause)),
        }
    }

    /// The end of the first atom that ends at this place of the block's object or after it, or the block's end where
    /// that comes first.
    fn atom_end(&self, place: u64) -> u64
        ensures { result ≡ atom_end self.now place }
    {
        let end = self.offset + self.size;
        match place.checked_next_multiple_of(self.atom) {
            Some(next) => next.min(end),
            None => end,
        }
    }

    /// The range of the block's object that holds `len` bytes from `offset` on in whole atoms, cut at the block's end.
    /// Both are in bytes, `offset` from the block's start, and those bytes must lie inside the block. While the block
    /// is mapped and its memory non-coherent, flush this range after the host's writes, and invalidate it before its
    /// reads (the Vulkan specification's rule on `VkMappedMemoryRange`). An import's range may begin before the block,
    /// by less than an atom.
    pub fn rounded(&self, offset: u64, len: u64) -> MappedMemoryRange<'_, M>
        requires { offset + len ≤ self.now.size }
        ensures { range_of M.object result ≡ rounded_range self.now offset len }
    {
        let start = self.offset + offset;
        let first = start / self.atom * self.atom;
        MappedMemoryRange {
            memory: &self.memory,
            offset: first,
            size: self.atom_end(start + len) - first,
        }
    }

    /// Maps some bytes in whole atoms where the object is the block's own. A shared one is mapped already.
    #[tactic(auto, unfolding(crate::specs::Agreement::BlockAgrees))]
    fn open<D: ObjectDevice<M>>(
        &self,
        device: &mut D,
        offset: u64,
        len: u64,
    ) -> Result<(), DeviceMapError>
        requires nonempty { 0 < len }
        requires inside { offset + len ≤ self.now.size }
        requires able { refusal self.now ≡ None }
        requires agrees { BlockAgrees self.now (D.properties device.old) (D.objects device.old) }
        ensures asked { Asked D.step device.old device.new
            (λ es. es ≡ of_own self.now (Mapped (rounded_range self.now offset len) result ∷ [])) }
        ensures objects { ObjectsMapped self.now (rounded_range self.now offset len) result (D.objects device.old)
            (D.objects device.new) }
        ensures sure { is_shared self.now.kind ≡ true → IsOk result }
        ensures ready { OnOk result (HeldWith (D.objects device.new) self.now.object
            (IsOpenForBytes (D.properties device.new) self.now (rounded_range self.now offset len))) }
        ensures properties { D.properties device.new ≡ D.properties device.old }
    {
        if self.kind.is_shared() {
            return Ok(());
        }
        let range = self.rounded(offset, len);
        device.map_memory(&self.memory, range.offset, range.size)
    }

    /// Unmaps the object where it is the block's own.
    fn close<D: ObjectDevice<M>>(&self, device: &mut D)
        requires { is_shared self.now.kind ≡ false → HeldWith (D.objects device.old) self.now.object IsMapped }
        ensures asked { Asked D.step device.old device.new (λ es. es ≡ of_own self.now (Unmapped self.now.object ∷ [])) }
        ensures objects { IsClosed (is_shared self.now.kind) self.now.object (D.objects device.old)
            (D.objects device.new) }
        ensures properties { D.properties device.new ≡ D.properties device.old }
    {
        if !self.kind.is_shared() {
            device.unmap_memory(&self.memory);
        }
    }

    /// Makes some of the host's bytes, in whole atoms, the device's too: flushes them where the memory is non-coherent.
    fn flush<D: ObjectDevice<M>>(
        &self,
        device: &mut D,
        offset: u64,
        len: u64,
    ) -> Result<(), OutOfMemory>
        requires inside { offset + len ≤ self.now.size }
        requires ready { HeldWith (D.objects device.old) self.now.object
            (IsOpenForBytes (D.properties device.old) self.now (rounded_range self.now offset len)) }
        ensures asked { Asked D.step device.old device.new
            (λ es. es ≡ where_non_coherent self.now (Flushed (rounded_range self.now offset len ∷ []) result)) }
        ensures objects { Changes (IsFlushed result (rounded_range self.now offset len)) (D.objects device.old)
            self.now.object (D.objects device.new) }
        ensures cause { OnErr result (are_non_coherent self.now.props ≡ true) }
        ensures properties { D.properties device.new ≡ D.properties device.old }
    {
        if !self.props().is_non_coherent() {
            return Ok(());
        }
        let range = self.rounded(offset, len);
        device.flush_memory_ranges(&[range])
    }

    /// Makes some of the device's bytes, in whole atoms, the host's too: invalidates them where the memory is
    /// non-coherent.
    fn invalidate<D: ObjectDevice<M>>(
        &self,
        device: &mut D,
        offset: u64,
        len: u64,
    ) -> Result<(), OutOfMemory>
        requires inside { offset + len ≤ self.now.size }
        requires ready { HeldWith (D.objects device.old) self.now.object
            (IsOpenForBytes (D.properties device.old) self.now (rounded_range self.now offset len)) }
        ensures asked { Asked D.step device.old device.new
            (λ es. es ≡ where_non_coherent self.now (Invalidated (rounded_range self.now offset len ∷ []) result)) }
        ensures objects { Changes (IsInvalidated result (rounded_range self.now offset len)) (D.objects device.old)
            self.now.object (D.objects device.new) }
        ensures cause { OnErr result (are_non_coherent self.now.props ≡ true) }
        ensures properties { D.properties device.new ≡ D.properties device.old }
    {
        if !self.props().is_non_coherent() {
            return Ok(());
        }
        let range = self.rounded(offset, len);
        device.invalidate_memory_ranges(&[range])
    }

    /// Puts bytes, and makes them the device's too.
    fn put<D: MemoryDevice<M>>(
        &self,
        device: &mut D,
        offset: u64,
        bytes: &[u8],
    ) -> Result<(), OutOfMemory>
        requires nonempty { 0 < length bytes.now }
        requires inside { offset + length bytes.now ≤ self.now.size }
        requires ready { HeldWith (D.objects device.old) self.now.object
            (IsOpenForBytes (D.properties device.old) self.now (rounded_range self.now offset (length bytes.now))) }
        ensures asked { Asked D.step device.old device.new (λ es. es ≡ putting self.now offset bytes.now result) }
        ensures written { OnOk result (Changes (IsWrittenThrough self.now offset bytes.now) (D.objects device.old)
            self.now.object (D.objects device.new)) }
        ensures refused { OnErr result (Changes (IsPartlyWritten self.now offset bytes.now) (D.objects device.old)
            self.now.object (D.objects device.new)) }
        ensures cause { OnErr result (are_non_coherent self.now.props ≡ true) }
        ensures properties { D.properties device.new ≡ D.properties device.old }
    {
        device.put_bytes(&self.memory, self.offset + offset, bytes);
        self.flush(device, offset, bytes.len() as u64)
    }

    /// Makes the device's bytes the host's too, and then gets them.
    fn get<D: MemoryDevice<M>>(
        &self,
        device: &mut D,
        offset: u64,
        bytes: &mut [u8],
    ) -> Result<(), OutOfMemory>
        requires nonempty { 0 < length bytes.old }
        requires inside { offset + length bytes.old ≤ self.now.size }
        requires ready { HeldWith (D.objects device.old) self.now.object
            (IsOpenForBytes (D.properties device.old) self.now (rounded_range self.now offset (length bytes.old))) }
        ensures asked { OnOk result (Asked D.step device.old device.new (λ es. es ≡ getting self.now offset bytes.new)) }
        ensures failed { IfErr result (λ e. Asked D.step device.old device.new
            (λ es. es ≡ invalidate_fails (rounded_range self.now offset (length bytes.old)) e)) }
        ensures read { OnOk result (Changes (IsReadThrough self.now offset bytes.new) (D.objects device.old)
            self.now.object (D.objects device.new)) }
        ensures refused { OnErr result (Changes (IsPartlyRead (rounded_range self.now offset (length bytes.old)))
            (D.objects device.old) self.now.object (D.objects device.new)) }
        ensures bytes { OnErr result (bytes.new ≡ bytes.old) }
        ensures cause { OnErr result (are_non_coherent self.now.props ≡ true) }
        ensures properties { D.properties device.new ≡ D.properties device.old }
    {
        match self.invalidate(device, offset, bytes.len() as u64) {
            Ok(()) => {
                device.get_bytes(&self.memory, self.offset + offset, bytes);
                Ok(())
            }
            Err(cause) => Err(cause),
        }
    }
}

/// Takes a block apart and returns its handle. The block's span stays live: `gpu_alloc` drops the handle once it has
/// freed the span.
#[inline(always)]
pub fn into_memory<M: MemoryObject>(block: MemoryBlock<M>) -> M
    ensures { M.object result ≡ block.object }
{
    let MemoryBlock {
        memory,
        offset: _,
        size: _,
        memory_type: _,
        props: _,
        atom: _,
        kind: _,
        mapping: _,
        key: _,
    } = block;
    memory
}
