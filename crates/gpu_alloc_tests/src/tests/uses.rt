//! A caller from opening to close, and a cache of textures.

ghost use Rattle.std.specs.Prelude.{false};
ghost use Rattle.gpu_alloc.specs.Request.{IsAskable};

use super::offers::{LOCAL, again, are_usable, offer};
use super::same::{holds, same};
use gpu_alloc::{AllocationError, Config, DeviceProperties, Request, UsageFlags};
use gpu_clients::uses::opening::open_and_close;
use gpu_clients::uses::textures::TextureCache;
use gpu_sim::{Question, Sim, SimMemory};
use std::alloc::Global;
use std::process::Abort;
use std::test::Fail;

type Cache = TextureCache<SimMemory, Sim>;

/// A request for this many bytes.
fn request(size: u64, usage: UsageFlags) -> Request {
    Request {
        size,
        align_mask: 0,
        usage,
        memory_types: 1,
    }
}

/// The bit of the address flag.
const ADDRESS: u8 = 1;

/// Opens an allocator, takes a block of 100 bytes and closes it. Compares the only question for an object.
fn use_once(
    rt: &impl Abort,
    alloc: Global,
    usage: UsageFlags,
    buffer_device_address: bool,
    flags: u8,
) -> Result<(), Fail> {
    let types = [LOCAL];
    let props = DeviceProperties {
        buffer_device_address,
        ..offer(&types, 1)
    };
    are_usable(rt, &props);
    let mut device: Sim = Sim::new(alloc, again(&props))?;
    let asked = request(100, usage);
    let done = open_and_close::<SimMemory, Sim>(alloc, props, &mut device, asked);
    let counts = (device.asked(Question::Allocate), device.objects());
    let latest = device.last_allocation();
    let latest = latest.map(|(size, memory_type, flags)| (size, memory_type, flags.bits()));
    drop(device);
    same(rt, "whether it is served", &done.is_ok(), &true);
    same(rt, "allocations and objects", &counts, &(1, 0));
    same(rt, "the question", &latest, &Some((8192, 0, flags)));
    Ok(())
}

/// A block comes from a chunk that is asked for, with the address flag exactly where the device has that feature. After
/// the close the device holds nothing.
#[test]
fn an_allocator_is_opened_used_and_closed(rt: HostRuntime) -> Result<(), Fail> {
    for usage in [UsageFlags::TRANSIENT, UsageFlags::empty()] {
        use_once(&rt, rt.alloc(), usage, false, 0)?;
        use_once(&rt, rt.alloc(), usage, true, ADDRESS)?;
    }
    Ok(())
}

/// A valid request for a texture of `size` bytes.
fn texture(rt: &impl Abort, size: u64) -> Request
    ensures { IsAskable false result }
{
    let asked = request(size, UsageFlags::empty());
    holds(rt, asked.is_askable(false), "a request");
    asked
}

/// The sizes under four keys.
fn found(cache: &Cache) -> [Option<u64>; 4] {
    let at = |key: u64| cache.get(key).map(|texture| texture.size());
    [at(1), at(2), at(3), at(4)]
}

/// Three textures of a third of the heap and one more, for which the oldest is evicted. One that is larger than the
/// heap, for which none is. And one that is evicted by its key.
fn cache_textures(rt: &impl Abort, cache: &mut Cache) {
    let third = 340 << 10;
    for key in 1..5 {
        let asked = texture(rt, third);
        same(rt, "a texture", &cache.load(key, asked), &Ok(()));
    }
    let kept = [None, Some(third), Some(third), Some(third)];
    same(rt, "without the oldest", &found(cache), &kept);
    let asked = texture(rt, (1 << 20) + 1);
    let refused = cache.load(1, asked);
    let wanted = Err(AllocationError::OutOfDeviceMemory);
    same(rt, "a refusal", &refused, &wanted);
    same(rt, "after a refusal", &found(cache), &kept);
    same(rt, "whether it went", &cache.evict(3), &true);
    same(rt, "whether it went again", &cache.evict(3), &false);
    let kept = [None, Some(third), None, Some(third)];
    same(rt, "without one", &found(cache), &kept);
}

/// A cache keeps what the heap has room for, and leaves nothing held.
#[test]
fn a_cache_evicts_its_oldest_texture_and_none_in_vain(rt: HostRuntime) -> Result<(), Fail> {
    let types = [LOCAL];
    let props = offer(&types, 1);
    are_usable(&rt, &props);
    let device: Sim = Sim::new(rt.alloc(), again(&props))?;
    match TextureCache::new(rt.alloc(), Config::i_am_potato(), props, device) {
        Ok(mut cache) => {
            cache_textures(&rt, &mut cache);
            let device = cache.end();
            same(&rt, "objects at the end", &device.objects(), &0);
            drop(device);
            Ok(())
        }
        Err(device) => {
            drop(device);
            Err(Fail::from("no memory for a cache"))
        }
    }
}
