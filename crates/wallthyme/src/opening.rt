//! The calls that open an allocator and close it.

ghost use Rattle.std.specs.Prelude.{◌≡◌, ◌≢◌, ◌↔◌, ◌⊎◌, ◌+◌, [], None, map, IfErr, IfOk, OnOk, IsNone, IsSome, IsSomeAnd};
ghost use Rattle.std.specs.FinMap as finite;
ghost use Rattle.gpu_alloc_types.specs.Properties.{IsUsable};
ghost use Rattle.gpu_alloc.specs.Request.{IsGranularity};
ghost use Rattle.gpu_desk.specs.Desk.{IsEmpty, page_of};
ghost use Rattle.wallthyme.specs.Handles.{desk_of};
ghost use Rattle.wallthyme.specs.Layout.{config_of, heap_of_size, memory_type_of, properties_from, sharing_of as sharing_by};
ghost use Rattle.wallthyme.specs.Malformed.{IsSharing};
ghost use Rattle.wallthyme.specs.Opening.{HasNothing, IsOpenedDesk};

use crate::handle::Handle;
use crate::kept::KeptDesk;
use crate::layout::{self, sharing_of};
use crate::status::{
    ALREADY_OPEN, BAD_PROPERTIES, NOT_OPEN, OK, OUT_OF_HOST_MEMORY, STILL_HELD, UNREAD_NAMES,
    not_opened,
};
use gpu_desk::{Desk, DeviceProperties, MemoryHeap, MemoryType, OpenError};
use std::alloc::{AllocError, Global};

/// `WT_VERSION` of the header that this library is built for.
pub(crate) const VERSION: u32 = 0x000a00;

#[unsafe(no_mangle)]
pub extern "C" fn wt_version() -> u32
    ensures { result ≡ VERSION }
{
    VERSION
}

#[unsafe(no_mangle)]
pub extern "C" fn wt_open(
    alloc: Global,
    handle: &mut Handle,
    types: &[layout::MemoryType],
    heap_sizes: &[u64],
    limits: &layout::Limits,
    config: &layout::Config,
) -> u32
    ensures already { (result ≡ ALREADY_OPEN) ↔ IsSome (desk_of handle.old) }
    ensures opened { result ≡ OK → IsSomeAnd (desk_of handle.new)
        (IsOpenedDesk (sharing_by config.now.sharing) (config_of config.now)
        (properties_from types.now heap_sizes.now limits.now) limits.now.buffer_image_granularity) }
    ensures usable { result ≡ OK → IsUsable (properties_from types.now heap_sizes.now limits.now) }
    ensures page { result ≡ OK → IsGranularity (page_of limits.now.buffer_image_granularity) }
    ensures sharing { result ≡ OK → IsSharing config.now.sharing }
    ensures status { (result ≡ OK) ⊎ ((result ≡ ALREADY_OPEN) ⊎ ((result ≡ BAD_PROPERTIES) ⊎ (result ≡ OUT_OF_HOST_MEMORY))) }
    ensures bad { result ≡ BAD_PROPERTIES → IsUsable (properties_from types.now heap_sizes.now limits.now)
        → IsGranularity (page_of limits.now.buffer_image_granularity) → IsSharing config.now.sharing → ⊥ }
    ensures host { result ≡ OUT_OF_HOST_MEMORY → IsSharing config.now.sharing }
    ensures refused { result ≢ OK → desk_of handle.new ≡ desk_of handle.old }
{
    if handle.is_open() {
        return ALREADY_OPEN;
    }
    match opened(alloc, types, heap_sizes, limits, config) {
        Ok(kept) => {
            handle.put(kept);
            OK
        }
        Err(error) => not_opened(error),
    }
}

fn opened(
    alloc: Global,
    types: &[layout::MemoryType],
    heap_sizes: &[u64],
    limits: &layout::Limits,
    config: &layout::Config,
) -> Result<Box<KeptDesk>, OpenError>
    ensures opened { IfOk result (λ kept. IsOpenedDesk (sharing_by config.now.sharing) (config_of config.now)
        (properties_from types.now heap_sizes.now limits.now) limits.now.buffer_image_granularity kept.value) }
    ensures usable { OnOk result (IsUsable (properties_from types.now heap_sizes.now limits.now)) }
    ensures page { OnOk result (IsGranularity (page_of limits.now.buffer_image_granularity)) }
    ensures sharing { OnOk result (IsSharing config.now.sharing) }
    ensures bad { result ≡ Err OpenError.BadProperties
        → IsUsable (properties_from types.now heap_sizes.now limits.now)
        → IsGranularity (page_of limits.now.buffer_image_granularity) → IsSharing config.now.sharing → ⊥ }
    ensures host { result ≡ Err OpenError.OutOfHostMemory → IsSharing config.now.sharing }
{
    let Some(sharing) = sharing_of(config.sharing) else {
        return Err(OpenError::BadProperties);
    };
    let Ok(memory_types) = memory_types(alloc, types) else {
        return Err(OpenError::OutOfHostMemory);
    };
    let Ok(memory_heaps) = memory_heaps(alloc, heap_sizes) else {
        return Err(OpenError::OutOfHostMemory);
    };
    let props = DeviceProperties {
        memory_types: &memory_types,
        memory_heaps: &memory_heaps,
        max_memory_allocation_count: limits.max_memory_allocation_count,
        max_memory_allocation_size: limits.max_memory_allocation_size,
        non_coherent_atom_size: limits.non_coherent_atom_size,
        buffer_device_address: limits.buffer_device_address != 0,
    };
    let desk = Desk::with_sharing(
        alloc,
        (*config).into(),
        props,
        limits.buffer_image_granularity,
        sharing,
    )?;
    boxed(alloc, desk)
}

/// A desk with nothing held, on the heap.
fn boxed(alloc: Global, desk: Desk) -> Result<Box<KeptDesk>, OpenError>
    requires { IsEmpty desk }
    ensures same { IfOk result (λ kept. kept.value ≡ desk) }
    ensures refused { IfErr result (λ error. error ≡ OpenError.OutOfHostMemory) }
{
    match Box::new(alloc, KeptDesk::new(alloc, desk)) {
        Ok(kept) => Ok(kept),
        Err(failed) => {
            failed.value.into_desk().close();
            Err(OpenError::OutOfHostMemory)
        }
    }
}

fn memory_types(alloc: Global, types: &[layout::MemoryType]) -> Result<Vec<MemoryType>, AllocError>
    ensures { IfOk result (λ made. made.items ≡ map memory_type_of types.now) }
{
    types.iter().map(|t| MemoryType::from(*t)).collect(alloc)
}

fn memory_heaps(alloc: Global, heap_sizes: &[u64]) -> Result<Vec<MemoryHeap>, AllocError>
    ensures { IfOk result (λ made. made.items ≡ map heap_of_size heap_sizes.now) }
{
    heap_sizes
        .iter()
        .map(|size| MemoryHeap { size: *size })
        .collect(alloc)
}

#[unsafe(no_mangle)]
pub extern "C" fn wt_close(alloc: Global, handle: &mut Handle) -> u32
    ensures closed { (result ≡ NOT_OPEN) ↔ IsNone (desk_of handle.old) }
    ensures status { (result ≡ OK) ⊎ ((result ≡ NOT_OPEN) ⊎ ((result ≡ STILL_HELD) ⊎ (result ≡ UNREAD_NAMES))) }
    ensures ended { result ≡ OK → desk_of handle.new ≡ None }
    ensures held_nothing { result ≡ OK → IsSomeAnd (desk_of handle.old) HasNothing }
    ensures still_held { result ≡ STILL_HELD → IsSomeAnd (desk_of handle.old)
        (λ s. finite.len s.blocks.live + finite.len s.allocator.held ≢ 0) }
    ensures unread { result ≡ UNREAD_NAMES → IsSomeAnd (desk_of handle.old) (λ s. s.device.held.gone ≢ []) }
    ensures refused { result ≢ OK → desk_of handle.new ≡ desk_of handle.old }
{
    let Some(kept) = handle.take(alloc) else {
        return NOT_OPEN;
    };
    let counts = kept.desk.counts();
    if counts.blocks != 0 || counts.held != 0 {
        handle.put(kept);
        return STILL_HELD;
    }
    if counts.unread != 0 {
        handle.put(kept);
        return UNREAD_NAMES;
    }
    Box::into_inner(kept).into_desk().close();
    OK
}
