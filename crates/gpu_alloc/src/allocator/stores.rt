//! What each heap and each memory type has: a ledger, and stores of shared chunks, opened and closed here.

ghost use Rattle.std.specs.Prelude.{◌≡◌, ◌<◌, length, map as map_list, All, IfOk};
ghost use Rattle.gpu_alloc_types.specs.Properties.{IsUsable, properties_of};
ghost use Rattle.gpu_alloc_base.specs.Heap.{unused};
ghost use Rattle.gpu_alloc_buddy.specs.BuddySound.{IsSoundBuddy};
ghost use Rattle.gpu_alloc_freelist.specs.FreeListSound.{IsSoundFreeList};
ghost use Rattle.gpu_alloc_fit.specs.FitSound.{IsSoundFit};
ghost use Rattle.gpu_alloc.specs.Opening.{AreFirst, IsFirstStore, first_buddy, first_fitting, first_listing};
ghost use Rattle.gpu_alloc.specs.Stores.{HaveNoChunk};

use crate::limits::{LEAST_GRAIN, atom_of};
use gpu_alloc_base::heap::Heap;
use gpu_alloc_base::{AllocationError, Config};
use gpu_alloc_block::Sharing;
use gpu_alloc_buddy::BuddyAllocator;
use gpu_alloc_fit::FitAllocator;
use gpu_alloc_freelist::FreeListAllocator;
use gpu_alloc_types::{DeviceProperties, MemoryHeap, MemoryObject};
use std::alloc::{AllocError, Allocator, Global};

/// A memory type's shared chunks: those of its free list, and those of the kind that was chosen.
pub(super) struct TypeStores<M: MemoryObject, A: Allocator = Global> {
    // (before the chosen store, which is large: behind it a call takes a few instructions more)
    pub(super) free_list: FreeListAllocator<M, A>,
    pub(super) chosen: Chosen<M, A>,
}

/// Chunks of the kind that was chosen.
pub(super) enum Chosen<M: MemoryObject, A: Allocator = Global> {
    Buddy(BuddyAllocator<M, A>),
    Fit(FitAllocator<M, A>),
}

/// The heaps that a device offers, of which nothing is held.
pub(super) fn unused_heaps<A: Allocator + Copy>(
    alloc: A,
    heaps: &[MemoryHeap],
) -> Result<Vec<Heap, A>, AllocError>
    ensures { IfOk result (λ all. all.items ≡ map_list (λ heap. unused heap.size) heaps.now) }
{
    heaps.iter().map(|heap| Heap::new(heap.size)).collect(alloc)
}

/// Stores of shared chunks for each memory type, with no chunk. The only error is want of host memory.
pub(super) fn empty_stores<M: MemoryObject, A: Allocator + Copy>(
    alloc: A,
    config: Config,
    sharing: Sharing,
    props: &DeviceProperties<'_>,
) -> Result<Vec<TypeStores<M, A>, A>, AllocError>
    requires { IsUsable (properties_of props.now) }
    ensures count { IfOk result (λ types. length types.items ≡ length (properties_of props.now).memory_types) }
    ensures each { IfOk result (λ types. AreFirst sharing config (properties_of props.now) types.items) }
{
    let count = props.memory_types.len();
    let mut types = Vec::with_capacity(alloc, count)?;
    for memory_type in 0..count {
        match empty_chosen(alloc, config, sharing, props, memory_type) {
            Ok(chosen) => types.push_reserved(TypeStores {
                chosen,
                free_list: empty_free_list(alloc, config, props, memory_type),
            }),
            Err(_) => {
                close_stores(types);
                return Err(AllocError);
            }
        }
    }
    Ok(types)
}

/// A memory type's store of the kind that is chosen, with no chunk. The only error is want of host memory.
fn empty_chosen<M: MemoryObject, A: Allocator + Copy>(
    alloc: A,
    config: Config,
    sharing: Sharing,
    props: &DeviceProperties<'_>,
    memory_type: usize,
) -> Result<Chosen<M, A>, AllocationError>
    requires usable { IsUsable (properties_of props.now) }
    requires known { memory_type < length (properties_of props.now).memory_types }
    ensures { IfOk result (IsFirstStore sharing config (properties_of props.now) memory_type) }
{
    match sharing {
        Sharing::Buddy => Ok(Chosen::Buddy(empty_buddy(alloc, config, props, memory_type)?)),
        Sharing::Fit => Ok(Chosen::Fit(empty_fit(alloc, config, props, memory_type))),
    }
}

/// Ends stores that hold no chunk.
pub(super) fn close_stores<M: MemoryObject, A: Allocator>(mut types: Vec<TypeStores<M, A>, A>)
    requires { All HaveNoChunk types.items }
{
    while let Some(stores) = types.pop() {
        let TypeStores { chosen, free_list } = stores;
        match chosen {
            Chosen::Buddy(buddy) => buddy.close(),
            Chosen::Fit(fit) => fit.close(),
        }
        free_list.close();
    }
    types.destroy_empty();
}

/// A memory type's buddy allocator, with no chunk. The only error is want of host memory.
fn empty_buddy<M: MemoryObject, A: Allocator + Copy>(
    alloc: A,
    config: Config,
    props: &DeviceProperties<'_>,
    memory_type: usize,
) -> Result<BuddyAllocator<M, A>, AllocationError>
    requires usable { IsUsable (properties_of props.now) }
    requires known { memory_type < length (properties_of props.now).memory_types }
    ensures first { IfOk result (λ buddy. buddy ≡ first_buddy config (properties_of props.now) memory_type) }
    ensures sound { IfOk result IsSoundBuddy }
{
    let own = props.memory_types[memory_type];
    let heap = props.memory_heaps[own.heap as usize].size;
    let atom = atom_of(own.props, props.non_coherent_atom_size);
    BuddyAllocator::new(
        alloc,
        config.minimal_size(heap),
        config.initial_size(heap),
        memory_type as u32,
        own.props,
        atom - 1,
    )
}

/// A memory type's free list, with no chunk.
fn empty_free_list<M: MemoryObject, A: Allocator + Copy>(
    alloc: A,
    config: Config,
    props: &DeviceProperties<'_>,
    memory_type: usize,
) -> FreeListAllocator<M, A>
    requires usable { IsUsable (properties_of props.now) }
    requires known { memory_type < length (properties_of props.now).memory_types }
    ensures first { result ≡ first_listing config (properties_of props.now) memory_type }
    ensures sound { IsSoundFreeList result }
{
    let own = props.memory_types[memory_type];
    let heap = props.memory_heaps[own.heap as usize].size;
    let atom = atom_of(own.props, props.non_coherent_atom_size);
    FreeListAllocator::new(
        alloc,
        config.starting_size(heap, atom),
        config.final_size(heap, atom),
        memory_type as u32,
        own.props,
        atom - 1,
    )
}

/// A memory type's allocator of fit chunks, with no chunk.
fn empty_fit<M: MemoryObject, A: Allocator + Copy>(
    alloc: A,
    config: Config,
    props: &DeviceProperties<'_>,
    memory_type: usize,
) -> FitAllocator<M, A>
    requires usable { IsUsable (properties_of props.now) }
    requires known { memory_type < length (properties_of props.now).memory_types }
    ensures first { result ≡ first_fitting config (properties_of props.now) memory_type }
    ensures sound { IsSoundFit result }
{
    let own = props.memory_types[memory_type];
    let heap = props.memory_heaps[own.heap as usize].size;
    let grain = atom_of(own.props, props.non_coherent_atom_size).max(LEAST_GRAIN);
    let starting = config.starting_size(heap, grain);
    FitAllocator::new(
        alloc,
        starting,
        starting
            .saturating_mul(4)
            .min(config.final_size(heap, grain)),
        memory_type as u32,
        own.props,
        grain - 1,
    )
}
