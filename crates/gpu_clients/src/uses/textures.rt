//! A cache of textures: blocks in an `IndexMap`, under the caller's own keys.

ghost use Rattle.std.specs.Prelude.{◌≡◌, ◌≢◌, ◌↔◌, ◌+◌, ◌<◌, ℕ, [], length, remove, nat_eq, Some, None, IsTrue, IsSome};
ghost use Rattle.std.specs.Prelude.{IfNone, IfSome, IfOk, IfErr, IsSomeAnd, OnOk, OnErr};
ghost use Rattle.std.specs.Option.{option_copied};
ghost use Rattle.gpu_alloc_types.specs.Properties.{IsUsable, properties_of};
ghost use Rattle.gpu_alloc.specs.Allocation.{IsGranted};
ghost use Rattle.gpu_alloc.specs.Request.{IsAskable};
ghost use Rattle.gpu_alloc.specs.Serving.{MayServe};
ghost use Rattle.gpu_alloc.specs.Kept.{outside};
ghost use Rattle.gpu_alloc.specs.Keyed.{under};
ghost use Rattle.indexmap.specs.IndexMap.{get, spare};
ghost use Rattle.gpu_alloc.specs.UnderKeys.{PutsUnder, TakesUnder};
ghost use Rattle.gpu_clients.specs.Textures.{IsLoaded, texture_at};

use crate::closing::close;
use gpu_alloc::laws::{agrees_at_first, blocks_under_keys_come_and_go};
use gpu_alloc::{AllocationError, Config, DeviceProperties, GpuAllocator, MemoryBlock, Request};
use gpu_alloc_types::{MemoryObject, ObjectDevice};
use indexmap::IndexMap;
use std::alloc::{Allocator, Global};
use std::hash::{BuildHasherDefault, FoldHasher};
use std::marker::Model;

type Textures<M, A> = IndexMap<u64, MemoryBlock<M>, BuildHasherDefault<FoldHasher>, A>;

/// Puts a block under a key that has none. There must be room for its entry.
fn put<M: MemoryObject, A: Allocator + Copy>(
    textures: &mut Textures<M, A>,
    key: u64,
    block: MemoryBlock<M>,
)
    requires free { get nat_eq textures.old key ≡ None }
    requires room { 0 < spare textures.old }
    ensures { PutsUnder textures.old.entries key block textures.new.entries }
{
    match textures.insert(key, block) {
        Ok(None) => {}
        Ok(Some(_older)) => unreachable!(),
        Err(_failed) => unreachable!(),
    }
}

/// Takes out the block under a key, if it has one.
fn take<M: MemoryObject, A: Allocator + Copy>(
    textures: &mut Textures<M, A>,
    key: u64,
) -> Option<MemoryBlock<M>>
    ensures taken { IfSome result (λ block. TakesUnder textures.old.entries key block textures.new.entries) }
    ensures none { IfNone result (textures.new.entries ≡ textures.old.entries) }
    ensures found { IsSome result ↔ IsSome (under textures.old.entries key) }
{
    textures.shift_remove(&key)
}

/// Takes out the block that was added first, with its key, if there is one.
fn take_first<M: MemoryObject, A: Allocator + Copy>(
    textures: &mut Textures<M, A>,
) -> Option<(u64, MemoryBlock<M>)>
    ensures taken { IfSome result (λ r. TakesUnder textures.old.entries r.0 r.1 textures.new.entries) }
    ensures rest { textures.new.entries ≡ remove textures.old.entries 0 }
    ensures none { IfNone result (length textures.old.entries ≡ 0) }
    ensures same { IfNone result (textures.new.entries ≡ textures.old.entries) }
{
    blocks_under_keys_come_and_go();
    let _ = textures.len();
    textures.shift_remove_index(0)
}

/// Takes out the block that was added last, with its key, if there is one.
fn take_last<M: MemoryObject, A: Allocator + Copy>(
    textures: &mut Textures<M, A>,
) -> Option<(u64, MemoryBlock<M>)>
    ensures taken { IfSome result (λ r. TakesUnder textures.old.entries r.0 r.1 textures.new.entries) }
    ensures none { IfNone result (length textures.old.entries ≡ 0) }
    ensures empty { IfNone result (textures.new.entries ≡ []) }
    ensures same { IfNone result (textures.new.entries ≡ textures.old.entries) }
{
    blocks_under_keys_come_and_go();
    textures.pop()
}

/// Textures of a device's memory, each a block under a key of the caller's. It cannot be dropped:
/// [`end`](TextureCache::end) ends it.
pub struct TextureCache<M: MemoryObject, D: ObjectDevice<M>, A: Allocator + Copy = Global> {
    allocator: GpuAllocator<M, A>,
    device: D,
    textures: Textures<M, A>,
}

impl<M: MemoryObject, D: ObjectDevice<M>, A: Allocator + Copy> Model for TextureCache<M, D, A> {
    ghost use Rattle.gpu_alloc.specs.UnderKeys.{AreAllKept};
    ghost use Rattle.gpu_clients.specs.Textures.{CacheState, cache_code};

    ghost Value = { CacheState D };

    ghost coded = { cache_code D.code };

    ghost view = { λ c. record {
      allocator = c.allocator;
      device = c.device;
      textures = c.textures.entries;
    } };

    ghost invariant = { λ c. AreAllKept c.allocator (D.properties c.device) (D.objects c.device) c.textures.entries };
}

impl<M: MemoryObject, D: ObjectDevice<M>, A: Allocator + Copy> TextureCache<M, D, A> {
    /// A cache without textures, over a device with these properties. Where host memory is missing, the device comes
    /// back.
    #[tactic(auto, using(gpu_alloc::proofs::UnderKeys::none))]
    pub fn new(alloc: A, config: Config, props: DeviceProperties<'_>, device: D) -> Result<Self, D>
        requires usable { IsUsable (properties_of props) }
        requires same { D.properties device ≡ properties_of props }
        ensures over { IfOk result (λ cache. cache.device ≡ device) }
        ensures empty { IfOk result (λ cache. cache.textures ≡ []) }
        ensures properties { IfOk result (λ cache. (cache.allocator).properties ≡ properties_of props.entry) }
        ensures given_back { IfErr result (λ other. other ≡ device) }
    {
        match GpuAllocator::new(alloc, config, props) {
            Ok(allocator) => {
                agrees_at_first(&allocator, &device);
                Ok(TextureCache {
                    allocator,
                    device,
                    textures: IndexMap::new(alloc),
                })
            }
            Err(_) => Err(device),
        }
    }

    /// The texture under a key, or `None` where there is none.
    pub fn get(&self, key: u64) -> Option<&MemoryBlock<M>>
        ensures { option_copied result ≡ texture_at self.now key }
    {
        self.textures.get(&key)
    }

    /// Makes sure that a key has a texture: the one that it has, or a new one that is granted as requested (`loaded`).
    /// As long as the new one is refused, the oldest texture is evicted. A request that can never be served evicts
    /// nothing.
    ///
    /// The request must be askable (`Request::is_askable`). The errors are those of [`GpuAllocator::alloc`], and
    /// `OutOfDeviceMemory` for a request that can never be served.
    pub fn load(&mut self, key: u64, request: Request) -> Result<(), AllocationError>
        requires { IsAskable ((self.old.allocator).properties).buffer_device_address request }
        ensures there { OnOk result (IsSome (texture_at self.new key)) }
        ensures loaded { OnOk result (texture_at self.old key ≡ None
            → IsLoaded self.old.allocator request self.new key) }
        ensures kept { IsSome (texture_at self.old key) → self.new ≡ self.old }
        ensures in_vain { (MayServe self.old.allocator request → ⊥) → self.new ≡ self.old }
        ensures properties { (self.new.allocator).properties ≡ (self.old.allocator).properties }
    {
        if self.textures.contains_key(&key) {
            return Ok(());
        }
        if !self.allocator.can_ever_serve(request) {
            return Err(AllocationError::OutOfDeviceMemory);
        }
        while let Err(refusal) = self.create(key, request) {
            if !self.evict_oldest() {
                return Err(refusal);
            }
        }
        Ok(())
    }

    /// Makes a new texture for the request, under a key that has none. An error leaves the textures unchanged.
    #[tactic(auto, using(gpu_alloc::proofs::UnderKeys::comes))]
    fn create(&mut self, key: u64, request: Request) -> Result<(), AllocationError>
        requires askable { IsAskable ((self.old.allocator).properties).buffer_device_address request }
        ensures there { OnOk result (IsSome (texture_at self.new key)) }
        ensures granted { OnOk result (texture_at self.old key ≡ None
            → IsSomeAnd (texture_at self.new key) (IsGranted self.old.allocator request self.new.allocator)) }
        ensures refused { OnErr result (self.new.textures ≡ self.old.textures) }
        ensures properties { (self.new.allocator).properties ≡ (self.old.allocator).properties }
    {
        if self.textures.contains_key(&key) {
            return Ok(());
        }
        if self.textures.reserve(1).is_err() {
            return Err(AllocationError::OutOfHostMemory);
        }
        let block = self.allocator.alloc(&mut self.device, request)?;
        put(&mut self.textures, key, block);
        Ok(())
    }

    /// Frees the texture of a key, and returns whether it had one.
    #[tactic(auto, using(gpu_alloc::proofs::UnderKeys::goes))]
    pub fn evict(&mut self, key: u64) -> bool
        ensures found { IsTrue result ↔ IsSome (texture_at self.old key) }
        ensures gone { texture_at self.new key ≡ None }
        ensures others { (other : ℕ) → other ≢ key → texture_at self.new other ≡ texture_at self.old other }
        ensures properties { (self.new.allocator).properties ≡ (self.old.allocator).properties }
    {
        blocks_under_keys_come_and_go();
        match take(&mut self.textures, key) {
            Some(block) => {
                self.allocator.dealloc(&mut self.device, block);
                true
            }
            None => false,
        }
    }

    /// Frees the oldest texture, and returns whether there was one.
    #[tactic(auto, using(gpu_alloc::proofs::UnderKeys::goes))]
    pub fn evict_oldest(&mut self) -> bool
        ensures some { IsTrue result ↔ (0 < length self.old.textures) }
        ensures oldest { self.new.textures ≡ remove self.old.textures 0 }
        ensures fewer { IsTrue result → length self.new.textures + 1 ≡ length self.old.textures }
        ensures none_comes { (key : ℕ) → texture_at self.old key ≡ None → texture_at self.new key ≡ None }
        ensures properties { (self.new.allocator).properties ≡ (self.old.allocator).properties }
    {
        blocks_under_keys_come_and_go();
        match take_first(&mut self.textures) {
            Some((_, block)) => {
                self.allocator.dealloc(&mut self.device, block);
                true
            }
            None => false,
        }
    }

    /// Frees every texture, and then returns the device, which no longer holds anything of the cache's.
    #[tactic(auto, using(gpu_alloc::proofs::UnderKeys::goes))]
    pub fn end(self) -> D
        ensures beside { (name : ℕ) → D.objects result name ≡ outside self.allocator (D.objects self.device) name }
        ensures properties { D.properties result ≡ D.properties self.device }
    {
        let TextureCache {
            mut allocator,
            mut device,
            mut textures,
        } = self;
        blocks_under_keys_come_and_go();
        while let Some((_, block)) = take_last(&mut textures) {
            allocator.dealloc(&mut device, block);
        }
        textures.destroy_empty();
        close(allocator, device)
    }
}
