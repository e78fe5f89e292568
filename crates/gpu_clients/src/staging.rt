//! Staging buffers, which carry bytes from the host to the device and back.

ghost use Rattle.std.specs.Prelude.{◌≡◌, ◌≢◌, ⊤, ℕ, ◌+◌, ◌%◌, ◌≤◌, Some, None, is_some, length, IfOk, IfErr, OnOk, OnErr, Err, IsTrue, option_copied};
ghost use Rattle.std.specs.FinMap as map;
ghost use Rattle.std.specs.Int.{bit_at};
ghost use Rattle.gpu_alloc_types.specs.Properties.{IsUsable, properties_of};
ghost use Rattle.gpu_alloc_block.specs.Contents.{HasSameDeviceBytes, Stores};
ghost use Rattle.gpu_alloc_block.specs.State.{Block};
ghost use Rattle.gpu_clients.specs.Staging.{AreBuffersApart, KeepsBuffers, OfBuffer, SameBuffers, SetsBuffer, beside, buffer_at};

use crate::resources::{Handle, ResourceManager};
use gpu_alloc::laws::{bytes_stay, candidates_serve_the_request};
use gpu_alloc::{
    AllocationError, Config, DeviceProperties, MapError, MemoryBlock, Request, UsageFlags,
};
use gpu_alloc_types::{MemoryDevice, MemoryObject};
use std::alloc::{Allocator, Global};
use std::error::Error;
use std::fmt;
use std::marker::Model;

/// Why a call of a pool is refused.
#[derive(Clone, Copy, Debug, PartialEq, Eq)]
pub enum StagingError {
    /// There are no bytes, or the alignment mask is invalid.
    NotAskable,

    /// There is no memory for the buffer, or for one more key.
    NoMemory(AllocationError),

    /// The device did not map the buffer, or did not make its bytes visible.
    NoAccess(MapError),

    /// No buffer has the key.
    UnknownKey,

    /// The range ends past the buffer.
    BadRange,
}

impl fmt::Display for StagingError {
    fn fmt<W: fmt::Write>(&self, f: &mut fmt::Formatter<W>) -> fmt::Result {
        match self {
            StagingError::NotAskable => write!(f, "No bytes, or no alignment mask"),
            StagingError::NoMemory(cause) => write!(f, "No memory for the buffer: {cause}"),
            StagingError::NoAccess(cause) => write!(f, "No access to the buffer: {cause}"),
            StagingError::UnknownKey => write!(f, "No buffer has the key"),
            StagingError::BadRange => write!(f, "The range passes the buffer's end"),
        }
    }
}

impl Error for StagingError {}

/// Host-visible buffers on a device, under keys that are never reused. Contracts see the allocator, the device and the
/// buffers. It cannot be dropped: [`end`](StagingPool::end) ends it.
pub struct StagingPool<M: MemoryObject, D: MemoryDevice<M>, A: Allocator + Copy = Global> {
    buffers: ResourceManager<M, D, A>,
}

impl<M: MemoryObject, D: MemoryDevice<M>, A: Allocator + Copy> Model for StagingPool<M, D, A> {
    ghost use Rattle.gpu_clients.specs.Resources.{ManagerState, manager_code};

    ghost Value = { ManagerState D };

    ghost coded = { manager_code D.code };

    ghost view = { λ p. p.buffers };
}

impl<M: MemoryObject, D: MemoryDevice<M>, A: Allocator + Copy> StagingPool<M, D, A> {
    /// A pool without buffers over a device, or the device where there is no memory for the pool's tables.
    ///
    /// Its tables take their memory from `alloc`, and `config` decides which buffers share a memory object. The
    /// properties must be usable (`DeviceProperties::is_usable`) and the device's own. The device is not called.
    pub fn new(alloc: A, config: Config, props: DeviceProperties<'_>, device: D) -> Result<Self, D>
        requires usable { IsUsable (properties_of props) }
        requires same { D.properties device ≡ properties_of props }
        ensures over { IfOk result (λ pool. pool.device ≡ device) }
        ensures none { IfOk result (λ pool. (key : ℕ) → buffer_at pool key ≡ None) }
        ensures beside { IfOk result (λ pool. (name : ℕ) → beside D.objects pool name ≡ D.objects device name) }
        ensures given_back { IfErr result (λ d. d ≡ device) }
    {
        match ResourceManager::new(alloc, config, props, device) {
            Ok(buffers) => Ok(StagingPool { buffers }),
            Err(device) => Err(device),
        }
    }

    /// Makes a buffer that holds these bytes as the device sees them, and returns its key, which no buffer had.
    ///
    /// The buffer starts at a multiple of `align_mask + 1`, a power of two of at most 2^63, and is of one of
    /// `memory_types` (those whose bit is set). There must be at least 1 byte. Whatever the device refuses, each byte
    /// of every other buffer is unchanged, for host and device. After an error (`NotAskable`, `NoMemory`, `NoAccess`)
    /// the buffers are the same as before.
    pub fn upload(
        &mut self,
        bytes: &[u8],
        align_mask: u64,
        memory_types: u32,
    ) -> Result<u64, StagingError>
        ensures was_free { IfOk result (λ key. buffer_at self.old key ≡ None) }
        ensures stored { IfOk result (λ key. OfBuffer self.new key
            (λ b. SetsBuffer self.old self.new key (Some b) × Stores b 0 bytes.now (D.objects self.new.device))) }
        ensures placed { IfOk result (λ key. OfBuffer self.new key
            (λ b. (b.offset % (align_mask + 1) ≡ 0) × (bit_at memory_types b.memory_type ≡ 1))) }
        ensures refused { OnErr result (SameBuffers self.old self.new) }
        ensures keeps { KeepsBuffers D.properties D.objects self.old self.new (λ _. ⊤) }
    {
        bytes_stay();
        let request = Request {
            size: bytes.len() as u64,
            align_mask,
            usage: UsageFlags::UPLOAD | UsageFlags::DOWNLOAD | UsageFlags::TRANSIENT,
            memory_types,
        };
        let handle = self.make(request)?;
        match self.fill(handle, bytes) {
            Ok(()) => Ok(handle.key),
            Err(refusal) => Err(StagingError::NoAccess(refusal)),
        }
    }

    /// Reads bytes of a buffer from `offset` on, in bytes from its start, as the device has them. No byte of the device
    /// changes, and none of the host's in other buffers.
    ///
    /// Errors: `UnknownKey`, `BadRange` where the range ends past the buffer, and `NoAccess`; `bytes` is then
    /// unchanged.
    #[tactic(auto, unfolding(gpu_alloc_block::specs::Contents::HasSameDeviceBytes))]
    pub fn download(&mut self, key: u64, offset: u64, bytes: &mut [u8]) -> Result<(), StagingError>
        ensures told { OnOk result (OfBuffer self.old key
            (λ b. Stores b offset bytes.new (D.objects self.old.device) × Stores b offset bytes.new (D.objects self.new.device))) }
        ensures refused { OnErr result (bytes.new ≡ bytes.old) }
        ensures unknown { buffer_at self.old key ≡ None → result ≡ Err StagingError.UnknownKey }
        ensures buffers { SameBuffers self.old self.new }
        ensures unmoved { (c : Block) → HasSameDeviceBytes c (D.objects self.old.device) (D.objects self.new.device) }
        ensures keeps { KeepsBuffers D.properties D.objects self.old self.new (λ other. other ≢ key) }
    {
        bytes_stay();
        self.has_range(key, offset, bytes.len() as u64)?;
        match self.buffers.read(Handle { key }, offset, bytes) {
            Ok(()) => Ok(()),
            Err(refusal) => Err(StagingError::NoAccess(refusal)),
        }
    }

    /// Frees a buffer, and returns whether there was one under the key.
    pub fn retire(&mut self, key: u64) -> bool
        ensures known { result ≡ is_some (buffer_at self.old key) }
        ensures gone { SetsBuffer self.old self.new key None }
        ensures fewer { IsTrue result → map.len self.new.blocks + 1 ≡ map.len self.old.blocks }
        ensures keeps { KeepsBuffers D.properties D.objects self.old self.new (λ _. ⊤) }
    {
        self.buffers.destroy(Handle { key })
    }

    /// The buffer under a key, for the program to bind and copy. No two buffers share a byte.
    pub fn buffer(&self, key: u64) -> Option<&MemoryBlock<M>>
        ensures value { option_copied result ≡ buffer_at self.now key }
        ensures apart { AreBuffersApart self.now }
    {
        self.buffers.keeps_blocks();
        self.buffers.block(Handle { key })
    }

    /// The device.
    pub fn device(&self) -> &D
        ensures { result.now ≡ self.now.device }
    {
        self.buffers.device()
    }

    /// Frees all buffers, and then returns the device, which has what it had apart from the pool. It allocates nothing
    /// and cannot fail.
    pub fn end(self) -> D
        ensures beside { (name : ℕ) → D.objects result name ≡ beside D.objects self name }
        ensures properties { D.properties result ≡ D.properties self.device }
    {
        let StagingPool { buffers } = self;
        buffers.end()
    }

    /// Whether there is a buffer under a key, and a range lies inside it.
    fn has_range(&self, key: u64, offset: u64, len: u64) -> Result<(), StagingError>
        ensures inside { OnOk result (OfBuffer self.now key (λ b. offset + len ≤ b.size)) }
        ensures unknown { buffer_at self.now key ≡ None → result ≡ Err StagingError.UnknownKey }
    {
        let Some(buffer) = self.buffers.block(Handle { key }) else {
            return Err(StagingError::UnknownKey);
        };
        let size = buffer.size();
        if offset > size || len > size - offset {
            return Err(StagingError::BadRange);
        }
        Ok(())
    }

    /// Makes a buffer for a request.
    #[tactic(auto, using(gpu_alloc_base::proofs::Maps::another_key))]
    fn make(&mut self, request: Request) -> Result<Handle, StagingError>
        ensures was_free { IfOk result (λ key. buffer_at self.old key ≡ None) }
        ensures another { IfOk result (λ key. (other : ℕ) (b : Block) → buffer_at self.old other ≡ Some b → other ≢ key) }
        ensures made { IfOk result (λ key. OfBuffer self.new key
            (λ b. SetsBuffer self.old self.new key (Some b) × (request.size ≤ b.size))) }
        ensures placed { IfOk result (λ key. OfBuffer self.new key
            (λ b. (b.offset % (request.align_mask + 1) ≡ 0) × (bit_at request.memory_types b.memory_type ≡ 1))) }
        ensures refused { OnErr result (SameBuffers self.old self.new) }
        ensures keeps { KeepsBuffers D.properties D.objects self.old self.new (λ _. ⊤) }
    {
        bytes_stay();
        candidates_serve_the_request();
        if !request.is_askable(false) {
            return Err(StagingError::NotAskable);
        }
        match self.buffers.create(request) {
            Ok(handle) => Ok(handle),
            Err(refusal) => Err(StagingError::NoMemory(refusal)),
        }
    }

    /// Writes bytes to a buffer that was just made, and frees it where that is refused.
    fn fill(&mut self, handle: Handle, bytes: &[u8]) -> Result<(), MapError>
        requires { OfBuffer self.old handle (λ b. length bytes.now ≤ b.size) }
        ensures stored { OnOk result (OfBuffer self.new handle (λ b. Stores b 0 bytes.now (D.objects self.new.device))) }
        ensures buffers { OnOk result (SameBuffers self.old self.new) }
        ensures gone { OnErr result (SetsBuffer self.old self.new handle None) }
        ensures keeps { KeepsBuffers D.properties D.objects self.old self.new (λ other. other ≢ handle) }
    {
        bytes_stay();
        let answer = self.buffers.write(handle, bytes);
        if answer.is_err() {
            self.buffers.destroy(handle);
        }
        answer
    }
}
