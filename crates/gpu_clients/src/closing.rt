//! How each of these programs ends.

ghost use Rattle.std.specs.Prelude.{◌≡◌, ℕ};
ghost use Rattle.std.specs.FinSet as set;
ghost use Rattle.gpu_alloc.specs.Agreement.{Agrees};
ghost use Rattle.gpu_alloc.specs.Kept.{outside};

use gpu_alloc::GpuAllocator;
use gpu_alloc_types::{MemoryObject, ObjectDevice};
use std::alloc::Allocator;

/// Closes an allocator without live blocks, and returns its device, which then has what it had outside.
pub(crate) fn close<M: MemoryObject, D: ObjectDevice<M>, A: Allocator + Copy>(
    mut allocator: GpuAllocator<M, A>,
    mut device: D,
) -> D
    requires agrees { Agrees allocator (D.properties device) (D.objects device) }
    requires none { set.len allocator.live ≡ 0 }
    ensures beside { (name : ℕ) → D.objects result name ≡ outside allocator (D.objects device) name }
    ensures properties { D.properties result ≡ D.properties device }
{
    allocator.cleanup(&mut device);
    allocator.close();
    device
}
