//! How an allocator is opened.

ghost use Rattle.std.specs.Prelude.{◌≡◌, IfOk, IfErr};
ghost use Rattle.gpu_alloc_types.specs.Properties.{IsUsable, properties_of};
ghost use Rattle.gpu_alloc.specs.Opening.{opened, opened_by};
ghost use Rattle.gpu_alloc.specs.Owned.{HoldsNothing};
ghost use Rattle.gpu_alloc.specs.Sound as Sound;

use super::GpuAllocator;
use super::stores::{empty_stores, unused_heaps};
use crate::MemoryForUsage;
use crate::limits::Limits;
use crate::own::OwnObjects;
use gpu_alloc_base::{AllocationError, Config};
use gpu_alloc_block::Sharing;
use gpu_alloc_types::{DeviceProperties, MemoryObject};
use std::alloc::Allocator;

impl<M: MemoryObject, A: Allocator + Copy> GpuAllocator<M, A> {
    /// An allocator that holds nothing, for the device with these properties. The device is not called. It may hold
    /// `max_memory_allocation_count` objects, and `config` decides which requests share one.
    ///
    /// Its tables take their memory from `alloc`. The properties must be usable (`DeviceProperties::is_usable`). The
    /// only error is `OutOfHostMemory`. Requests share buddy chunks: for another choice see
    /// [`with_sharing`](GpuAllocator::with_sharing).
    pub fn new(
        alloc: A,
        config: Config,
        props: DeviceProperties<'_>,
    ) -> Result<Self, AllocationError>
        requires { IsUsable (properties_of props) }
        ensures opened { IfOk result (λ allocator. allocator ≡ opened config (properties_of props.entry)) }
        ensures empty { IfOk result (HoldsNothing (properties_of props.entry)) }
        ensures sound { IfOk result Sound.IsSound }
        ensures refused { IfErr result (λ e. e ≡ AllocationError.OutOfHostMemory) }
    {
        GpuAllocator::with_sharing(alloc, config, props, Sharing::Buddy)
    }

    /// As [`new`](GpuAllocator::new), with a choice of how requests that are not `TRANSIENT` share objects: in buddy
    /// chunks, as in the original crate, or in fit chunks. The choice is fixed ([`sharing`](GpuAllocator::sharing)).
    pub fn with_sharing(
        alloc: A,
        config: Config,
        props: DeviceProperties<'_>,
        sharing: Sharing,
    ) -> Result<Self, AllocationError>
        requires { IsUsable (properties_of props) }
        ensures opened { IfOk result (λ allocator. allocator ≡ opened_by sharing config (properties_of props.entry)) }
        ensures empty { IfOk result (HoldsNothing (properties_of props.entry)) }
        ensures sound { IfOk result Sound.IsSound }
        ensures refused { IfErr result (λ e. e ≡ AllocationError.OutOfHostMemory) }
    {
        let Ok(memory_types) = Vec::from_slice(alloc, props.memory_types) else {
            return Err(AllocationError::OutOfHostMemory);
        };
        let Ok(heaps) = unused_heaps(alloc, props.memory_heaps) else {
            return Err(AllocationError::OutOfHostMemory);
        };
        let Ok(types) = empty_stores(alloc, config, sharing, &props) else {
            return Err(AllocationError::OutOfHostMemory);
        };
        let allocator = GpuAllocator {
            limits: Limits {
                config,
                sharing,
                memory_types,
                memory_for_usage: MemoryForUsage::new(props.memory_types),
                max_memory_allocation_count: props.max_memory_allocation_count,
                max_memory_allocation_size: props.max_memory_allocation_size,
                non_coherent_atom_size: props.non_coherent_atom_size,
                buffer_device_address: props.buffer_device_address,
            },
            heaps,
            types,
            own: OwnObjects::new(alloc),
            allocations_remains: props.max_memory_allocation_count,
        };
        allocator.keeps_sound();
        Ok(allocator)
    }
}
