//! Blocks from what is held, without a question to the device.

ghost use Rattle.std.specs.Prelude.{◌≡◌, true, None, Ok, IfErr, IfOk, IfSome, OnErr};
ghost use Rattle.gpu_alloc_block.specs.Agreement.{Agrees, BlockAgrees, KeepsBlocks};
ghost use Rattle.gpu_alloc_block.specs.State.{is_shared};
ghost use Rattle.gpu_alloc.specs.Allocation.{IsExactFit, IsGranted, IsInPages};
ghost use Rattle.gpu_alloc.specs.HeldOnly.{AllocatesHeld};
ghost use Rattle.gpu_alloc.specs.Owned.{Adds, Leaves};
ghost use Rattle.gpu_alloc.specs.Request.{IsAskable, IsGranularity};
ghost use Rattle.gpu_alloc.specs.Sound as allocator_sound;
ghost use Rattle.gpu_answers.specs.Device.{objects_of};
ghost use Rattle.gpu_desk.specs.Calls.{AllocatedHeld, HeldDenied, IsAsBefore, KeepsDesk};
ghost use Rattle.gpu_desk.specs.Wishes.{pages_of, plan_for, served_as};

use super::Desk;
use super::granting::{goes_by_pages, keep, make_room};
use crate::wish::Tag;
use crate::{Denial, Fault, Grant, Wish};
use gpu_alloc::{AllocationError, GpuAllocator, MemoryBlock, Request};
use gpu_answers::{AnsweredDevice, ObjectName};

/// The granularity of pages for a request, if it goes by pages.
fn pages_of(wish: Wish, granularity: u64) -> Option<u64>
    requires page { IsGranularity granularity }
    ensures is { result ≡ pages_of granularity wish }
    ensures page { IfSome result IsGranularity }
{
    if goes_by_pages(wish, granularity) {
        Some(granularity)
    } else {
        None
    }
}

/// Allocates a block from what is held, by whole pages where it must.
fn allocate_held(
    allocator: &mut GpuAllocator<ObjectName>,
    device: &mut AnsweredDevice,
    request: Request,
    wish: Wish,
    granularity: u64,
) -> Result<Option<MemoryBlock<ObjectName>>, AllocationError>
    requires askable { IsAskable (allocator.old.properties).buffer_device_address request }
    requires page { IsGranularity granularity }
    requires agrees { Agrees allocator.old device.old.properties (objects_of device.old) }
    ensures decided { AllocatesHeld allocator.old (plan_for allocator.old granularity request wish)
        result allocator.new }
    ensures unasked { device.new ≡ device.old }
    ensures agrees { Agrees allocator.new device.new.properties (objects_of device.new) }
    ensures held { allocator.new.held ≡ allocator.old.held }
    ensures remaining { allocator.new.remaining ≡ allocator.old.remaining }
    ensures granted { IfOk result (λ served. IfSome served (IsGranted allocator.old request allocator.new)) }
    ensures exact { IfOk result (λ served. IfSome served (IsExactFit allocator.old
        (served_as granularity request wish))) }
    ensures shared { IfOk result (λ served. IfSome served (λ block. is_shared block.kind ≡ true)) }
    ensures pages { IfOk result (λ served. IfSome served (λ block.
        wish.optimal ≡ true → IsInPages granularity request.size block)) }
    ensures ready { IfOk result (λ served. IfSome served (λ block.
        BlockAgrees block device.new.properties (objects_of device.new))) }
    ensures added { IfOk result (λ served. IfSome served (Adds allocator.old allocator.new)) }
    ensures refused { OnErr result (allocator.new ≡ allocator.old) }
    ensures would_ask { result ≡ Ok None → allocator.new ≡ allocator.old }
    ensures leaves { Leaves allocator.old allocator.new }
    ensures keeps { KeepsBlocks allocator.old device.old.properties (objects_of device.old)
        allocator.new device.new.properties (objects_of device.new) }
    ensures sound { allocator_sound.IsSound allocator.new }
{
    let pages = pages_of(wish, granularity);
    allocator.alloc_held(device, request, wish.dedicated, pages)
}

impl Desk {
    /// Allocates a block as [`alloc`](Desk::alloc) does, but only from what is held (`GpuAllocator::alloc_held`): it
    /// takes no answers and leaves no question open. The grant's object is not new.
    ///
    /// It denies:
    ///
    /// - a request that is not askable, with its first fault ([`request_fault`](Desk::request_fault))
    /// - `Fault::NoMemory` for want of memory for the key
    /// - `WouldAsk` where no memory type of the request has a place in a held chunk; a type that serves it by an object
    ///   of its own has none
    /// - `Refused`, with the allocator's error.
    ///
    /// Nothing has changed then.
    #[tactic(auto, unfolding(crate::specs::Calls::HeldDenied))]
    pub fn alloc_held(&mut self, request: Request, wish: Wish) -> Result<Grant, Denial>
        ensures granted { IfOk result (AllocatedHeld self.old request wish self.new) }
        ensures denied { IfErr result (HeldDenied self.old request wish) }
        ensures unasked { self.new.device ≡ self.old.device }
        ensures unchanged { OnErr result (IsAsBefore self.old self.new) }
        ensures keeps { KeepsDesk self.old self.new }
    {
        if let Some(fault) = self.request_fault(request) {
            return Err(Denial::Fault(fault));
        }
        if make_room(&mut self.blocks, &mut self.tags).is_err() {
            return Err(Denial::Fault(Fault::NoMemory));
        }
        let answer = allocate_held(
            &mut self.allocator,
            &mut self.device,
            request,
            wish,
            self.granularity,
        );
        match answer {
            Ok(Some(block)) => {
                let tag = Tag {
                    user: wish.user,
                    asked: request.size,
                    optimal: wish.optimal,
                };
                Ok(keep(&mut self.blocks, &mut self.tags, block, false, tag))
            }
            Ok(None) => Err(Denial::WouldAsk),
            Err(refusal) => Err(Denial::Refused(refusal)),
        }
    }
}
