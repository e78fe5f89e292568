//! The desk.

ghost use Rattle.std.specs.Prelude.{◌≡◌, [], IfOk, OnOk, Err};
ghost use Rattle.std.specs.FinMap as map;
ghost use Rattle.gpu_alloc_types.specs.Properties.{IsUsable, properties_of};
ghost use Rattle.gpu_alloc.specs.Opening.{opened, opened_by};
ghost use Rattle.gpu_alloc.specs.Request.{IsGranularity};
ghost use Rattle.gpu_slots.specs.SlotMap as slots;
ghost use Rattle.gpu_desk.specs.Desk.{IsEmpty, IsSoundDesk, page_of};

mod counting;
mod granting;
mod holding;
mod mapping;
mod reading;
mod walking;

use crate::wish::Tag;
use crate::{Config, DeviceProperties, OpenError};
use gpu_alloc::{GpuAllocator, MemoryBlock, Sharing};
use gpu_answers::{AnsweredDevice, ObjectName};
use gpu_session::Offer;
use gpu_slots::SlotMap;
use std::alloc::{AllocError, Global};
use std::marker::Model;

/// Live blocks by key.
type Blocks = SlotMap<MemoryBlock<ObjectName>>;

/// How many places of keys there can be: a key's place is its lower 32 bits.
const PLACES: u64 = 1 << 32;

/// The largest granularity of buffers and images, in bytes.
const LARGEST_PAGE: u64 = 1 << 32;

/// An allocator with its live blocks by key, whose device is asked from outside. It cannot be dropped:
/// [`close`](Desk::close) ends it.
///
/// A call that needs the device takes the answers to its questions so far, and is denied with the next question if
/// there is one. Its caller asks the device and makes the call again. The names of released objects are read one by one
/// ([`next_gone`](Desk::next_gone)), and none is lost.
pub struct Desk {
    allocator: GpuAllocator<ObjectName>,
    device: AnsweredDevice,
    blocks: Blocks,
    // By the key's place: the tag of its block, or of the latest block that the place had.
    tags: Vec<Tag>,
    granularity: u64,
    offer: Offer<Global>,
}

impl Model for Desk {
    ghost use Rattle.gpu_desk.specs.Desk.{DeskState, desk_code};

    ghost Value = { DeskState };

    ghost coded = { desk_code };

    ghost use Rattle.gpu_desk.specs.Desk.{IsDesk};

    ghost view = { λ d. record {
      allocator = d.allocator;
      blocks = d.blocks;
      device = d.device;
      tags = d.tags.items;
      granularity = d.granularity;
    } };

    ghost invariant = { λ d. IsDesk d.offer (record {
      allocator = d.allocator;
      blocks = d.blocks;
      device = d.device;
      tags = d.tags.items;
      granularity = d.granularity;
    }) };
}

impl Desk {
    /// A desk over a device that offers these properties, with nothing held.
    ///
    /// `granularity` is the device's `bufferImageGranularity`, in bytes: a linear and an optimal resource may share no
    /// page of that size. 0 counts as 1.
    ///
    /// It takes memory for its tables. `BadProperties` where the properties are not usable, or the granularity is not a
    /// power of two of at most 2^32; `OutOfHostMemory` for want of memory.
    pub fn new(
        alloc: Global,
        config: Config,
        props: DeviceProperties<'_>,
        granularity: u64,
    ) -> Result<Desk, OpenError>
        ensures opened { IfOk result (λ desk. desk.allocator ≡ opened config (properties_of props.entry)) }
        ensures empty { IfOk result IsEmpty }
        ensures page { IfOk result (λ desk. desk.granularity ≡ page_of granularity) }
        ensures usable { OnOk result (IsUsable (properties_of props.entry) × IsGranularity (page_of granularity)) }
        ensures bad { result ≡ Err OpenError.BadProperties → IsUsable (properties_of props.entry)
            → IsGranularity (page_of granularity) → ⊥ }
        ensures scarce { result ≡ Err OpenError.OutOfHostMemory → IsUsable (properties_of props.entry)
            × IsGranularity (page_of granularity) }
    {
        Desk::with_sharing(alloc, config, props, granularity, Sharing::Buddy)
    }

    /// As [`new`](Desk::new), with a choice of how requests that are not `TRANSIENT` share objects: in buddy chunks, or
    /// in fit chunks.
    pub fn with_sharing(
        alloc: Global,
        config: Config,
        props: DeviceProperties<'_>,
        granularity: u64,
        sharing: Sharing,
    ) -> Result<Desk, OpenError>
        ensures opened { IfOk result (λ desk. desk.allocator ≡ opened_by sharing config (properties_of props.entry)) }
        ensures empty { IfOk result IsEmpty }
        ensures page { IfOk result (λ desk. desk.granularity ≡ page_of granularity) }
        ensures usable { OnOk result (IsUsable (properties_of props.entry) × IsGranularity (page_of granularity)) }
        ensures bad { result ≡ Err OpenError.BadProperties → IsUsable (properties_of props.entry)
            → IsGranularity (page_of granularity) → ⊥ }
        ensures scarce { result ≡ Err OpenError.OutOfHostMemory → IsUsable (properties_of props.entry)
            × IsGranularity (page_of granularity) }
    {
        let page = page_of(granularity);
        if !props.is_usable() || page > LARGEST_PAGE || !page.is_power_of_two() {
            return Err(OpenError::BadProperties);
        }
        match Desk::over(alloc, config, props, page, sharing) {
            Ok(desk) => Ok(desk),
            Err(_) => Err(OpenError::OutOfHostMemory),
        }
    }

    fn over(
        alloc: Global,
        config: Config,
        props: DeviceProperties<'_>,
        page: u64,
        sharing: Sharing,
    ) -> Result<Desk, AllocError>
        requires usable { IsUsable (properties_of props) }
        requires page { IsGranularity page }
        ensures opened { IfOk result (λ desk. desk.allocator ≡ opened_by sharing config (properties_of props.entry)) }
        ensures empty { IfOk result IsEmpty }
        ensures page { IfOk result (λ desk. desk.granularity ≡ page) }
    {
        let offer = Offer::of(alloc, &props)?;
        let device = AnsweredDevice::new(alloc, again(&props))?;
        let Ok(allocator) = GpuAllocator::with_sharing(alloc, config, props, sharing) else {
            return Err(AllocError);
        };
        Ok(Desk {
            allocator,
            device,
            blocks: SlotMap::new(alloc),
            tags: Vec::new(alloc),
            granularity: page,
            offer,
        })
    }

    /// A lemma about every desk, whatever calls were made: does nothing at run time. Live blocks share no memory. No
    /// held object has a name that waits to be read, and each such name is listed once.
    pub fn keeps_sound(&self)
        ensures { IsSoundDesk self.now }
    {
        self.device.keeps_names();
    }

    /// Ends the desk, once no block is live, no object is held and each name was read (see `counts`).
    pub fn close(self)
        requires blocks { map.len self.blocks.live ≡ 0 }
        requires held { map.len self.allocator.held ≡ 0 }
        requires told { self.device.held.gone ≡ [] }
    {
        let Desk {
            allocator,
            device: _,
            blocks,
            tags: _,
            granularity: _,
            offer: _,
        } = self;
        blocks.destroy_empty();
        allocator.close();
    }
}

/// The place of a key, at which its tag stands too.
#[inline(always)]
fn place_of(key: u64) -> usize
    ensures { result ≡ slots.place_of key }
{
    (key % PLACES) as usize
}

/// The size of a page, in bytes: the granularity, or 1 where it is 0.
fn page_of(granularity: u64) -> u64
    ensures { result ≡ page_of granularity }
{
    if granularity == 0 { 1 } else { granularity }
}

/// A copy of these properties.
fn again<'a>(props: &DeviceProperties<'a>) -> DeviceProperties<'a>
    ensures { properties_of result ≡ properties_of props.now }
{
    DeviceProperties {
        memory_types: props.memory_types,
        memory_heaps: props.memory_heaps,
        max_memory_allocation_count: props.max_memory_allocation_count,
        max_memory_allocation_size: props.max_memory_allocation_size,
        non_coherent_atom_size: props.non_coherent_atom_size,
        buffer_device_address: props.buffer_device_address,
    }
}
