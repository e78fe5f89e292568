//! Calls that grant and free blocks.

ghost use Rattle.std.specs.Prelude.{◌≡◌, ◌<◌, ◌↔◌, ℕ, Bool, true, List, length, Some, Err, IfOk, IfErr, IfSome, IsSome, IsTrue, OnOk, OnErr, vec_len, vec_capacity};
ghost use Rattle.std.specs.FinMap as map;
ghost use Rattle.gpu_alloc_types.specs.Device.{Event, Chain};
ghost use Rattle.gpu_alloc_block.specs.Agreement.{Agrees, BlockAgrees, KeepsBlocks};
ghost use Rattle.gpu_alloc_block.specs.State.{total};
ghost use Rattle.gpu_alloc.specs.Allocation.{AllocatesBy, ObjectsAfter, IsExactFit, IsGranted, IsInPages};
ghost use Rattle.gpu_alloc.specs.Owned.{Adds, Leaves};
ghost use Rattle.gpu_alloc.specs.Request.{IsAskable, IsGranularity};
ghost use Rattle.gpu_alloc.specs.Sound as allocator_sound;
ghost use Rattle.gpu_answers.specs.Device.{IsStep, objects_of};
ghost use Rattle.gpu_desk.specs.Calls.{AllocationDenied, Allocated, CleansUp, HasKey, ImportDenied, Imported};
ghost use Rattle.gpu_desk.specs.Calls.{IsAsBefore, IsUnknown, KeepsDesk, Returns, Tells, TellsTag, fault_of_alloc};
ghost use Rattle.gpu_desk.specs.Tags.{tag_at};
ghost use Rattle.gpu_desk.specs.Wishes.{MayCome, asks_own, goes_by_pages, is_own, plan_for, served_as};

use super::{Blocks, Desk, place_of};
use crate::denial::denial_after;
use crate::wish::Tag;
use crate::{Denial, Fault, Grant, Wish};
use gpu_alloc::laws::{made_objects_may_be_imported, objects_of_others_may_go};
use gpu_alloc::{AllocationError, Dedicated, GpuAllocator, Kind, MemoryBlock, Request};
use gpu_alloc_types::{MemoryObject, ObjectDevice};
use gpu_answers::{Answer, Answered, AnsweredDevice, ObjectName, Question};
use gpu_session::{import_fault, request_fault};
use std::alloc::AllocError;

/// Whether a request goes by whole pages: it is for an optimal resource, and a page has more than one byte.
#[inline(always)]
pub(super) fn goes_by_pages(wish: Wish, granularity: u64) -> bool
    ensures { result ≡ goes_by_pages granularity wish }
{
    wish.optimal && granularity != 1
}

/// Allocates a block, perhaps with a hint that it wants an object of its own, and by whole pages where it must.
fn allocate(
    allocator: &mut GpuAllocator<ObjectName>,
    device: &mut AnsweredDevice,
    request: Request,
    wish: Wish,
    granularity: u64,
) -> Result<MemoryBlock<ObjectName>, AllocationError>
    requires askable { IsAskable (allocator.old.properties).buffer_device_address request }
    requires page { IsGranularity granularity }
    requires agrees { Agrees allocator.old device.old.properties (objects_of device.old) }
    ensures decided { (es : List Event) × Chain IsStep device.old es device.new
        × AllocatesBy allocator.old (plan_for allocator.old granularity request wish) es result allocator.new }
    ensures objects { ObjectsAfter allocator.old result allocator.new (objects_of device.old) (objects_of device.new) }
    ensures agrees { Agrees allocator.new device.new.properties (objects_of device.new) }
    ensures granted { IfOk result (IsGranted allocator.old request allocator.new) }
    ensures exact { IfOk result (IsExactFit allocator.old (served_as granularity request wish)) }
    ensures pages { IfOk result (λ block. wish.optimal ≡ true → IsInPages granularity request.size block) }
    ensures alone { IfOk result (λ block.
        IsTrue (is_own allocator.old (plan_for allocator.old granularity request wish) block.memory_type)
        ↔ (block.kind ≡ Kind.Dedicated)) }
    ensures ready { IfOk result (λ block. BlockAgrees block device.new.properties (objects_of device.new)) }
    ensures own { IfOk result (λ block. wish.dedicated ≡ Some Dedicated.Required → block.kind ≡ Kind.Dedicated) }
    ensures added { IfOk result (Adds allocator.old allocator.new) }
    ensures refused { OnErr result (allocator.new ≡ allocator.old) }
    ensures leaves { Leaves allocator.old allocator.new }
    ensures keeps { KeepsBlocks allocator.old device.old.properties (objects_of device.old)
        allocator.new device.new.properties (objects_of device.new) }
    ensures total { total allocator.new ≡ total allocator.old }
    ensures sound { allocator_sound.IsSound allocator.new }
{
    if goes_by_pages(wish, granularity) {
        return allocator.alloc_optimal(device, request, wish.dedicated, granularity);
    }
    match wish.dedicated {
        None => allocator.alloc(device, request),
        Some(dedicated) => allocator.alloc_with_dedicated(device, request, dedicated),
    }
}

/// Whether the question that is open in a request's run, if there is one, is for an object of the block's own.
fn asks_own(
    allocator: &GpuAllocator<ObjectName>,
    request: Request,
    wish: Wish,
    granularity: u64,
    pending: Option<Question>,
) -> bool
    requires page { IsGranularity granularity }
    requires may_come { IfSome pending (MayCome allocator.now (plan_for allocator.now granularity request wish)) }
    ensures { IfSome pending (λ question.
        result ≡ asks_own allocator.now (plan_for allocator.now granularity request wish) question) }
{
    let Some(Question::Allocate { memory_type, .. }) = pending else {
        return false;
    };
    if !goes_by_pages(wish, granularity) {
        return allocator.serves_alone(request, wish.dedicated, memory_type);
    }
    match request.in_pages(granularity) {
        Some(paged) => allocator.serves_alone(paged, wish.dedicated, memory_type),
        None => unreachable!(),
    }
}

/// A block as a grant, with its tag.
pub(super) fn grant_of(block: &MemoryBlock<ObjectName>, key: u64, fresh: bool, tag: Tag) -> Grant
    ensures key { result.key ≡ key }
    ensures tells { Tells block.now result }
    ensures fresh { result.fresh ≡ fresh }
    ensures tag { TellsTag tag result }
{
    Grant {
        key,
        object: block.memory().object(),
        offset: block.offset(),
        size: block.size(),
        memory_type: block.memory_type(),
        fresh,
        user: tag.user,
        asked: tag.asked,
        optimal: tag.optimal,
    }
}

/// Makes room for one more key, and for its tag. Nothing but the room changes.
pub(super) fn make_room(blocks: &mut Blocks, tags: &mut Vec<Tag>) -> Result<(), AllocError>
    ensures room { OnOk result (0 < blocks.new.room) }
    ensures tag_room { OnOk result (vec_len tags.new < vec_capacity tags.new) }
    ensures kept { blocks.new ≡ record blocks.old { room = blocks.new.room } }
    ensures tags { tags.new.items ≡ tags.old.items }
{
    blocks.reserve()?;
    tags.reserve(1)
}

/// Keeps a block under a new key with a tag, and returns it as a grant. There must be room for both.
pub(super) fn keep(
    blocks: &mut Blocks,
    tags: &mut Vec<Tag>,
    block: MemoryBlock<ObjectName>,
    fresh: bool,
    tag: Tag,
) -> Grant
    requires room { 0 < blocks.old.room }
    requires tag_room { vec_len tags.old < vec_capacity tags.old }
    requires tagged { length tags.old.items ≡ length blocks.old.generations }
    ensures kept { HasKey blocks.old result.key block blocks.new }
    ensures tells { Tells block result }
    ensures fresh { result.fresh ≡ fresh }
    ensures tells_tag { TellsTag tag result }
    ensures tagged { length tags.new.items ≡ length blocks.new.generations }
    ensures tag { tag_at tags.new.items result.key ≡ tag }
    ensures others { (other : ℕ) → IsSome (map.get blocks.old.live other)
        → tag_at tags.new.items other ≡ tag_at tags.old.items other }
{
    let told = grant_of(&block, 0, fresh, tag);
    let key = blocks.insert_reserved(block);
    blocks.keeps_places();
    let place = place_of(key);
    if place == tags.len() {
        tags.push_reserved(tag);
    } else {
        tags[place] = tag;
    }
    Grant { key, ..told }
}

impl Desk {
    /// The first condition that a request misses: `BadSize` for 0 bytes, `BadAlignment` for a mask that is not one less
    /// than a power of two of at most 2^63, `NoDeviceAddress` for the usage `DEVICE_ADDRESS` without the device's
    /// feature. `None` where it misses none: [`alloc`](Desk::alloc) and [`alloc_held`](Desk::alloc_held) then deny it
    /// for other reasons alone. It allocates nothing.
    pub fn request_fault(&self, request: Request) -> Option<Fault>
        ensures { result ≡ fault_of_alloc self.now request }
    {
        request_fault(request, self.offer.buffer_device_address)
    }

    /// Allocates a block as `GpuAllocator::alloc` does, or with a hint as `alloc_with_dedicated`, in a run with these
    /// answers. The wish's value is kept with the block, with the requested size and whether it is for an optimal
    /// resource.
    ///
    /// The grant says where the block lies, what is kept with it, and whether its object is new: the one that the
    /// caller's device made last. Any other object that was made for the request is the caller's to free. So is each of
    /// them where the call is denied.
    ///
    /// It denies:
    ///
    /// - a request that is not askable, with its first fault ([`request_fault`](Desk::request_fault))
    /// - `Fault::NoMemory` for want of memory for the key or the answers
    /// - `Open`, with the question that has no answer
    /// - `Strayed`
    /// - `Refused`, with the allocator's error.
    ///
    /// Nothing has changed then.
    ///
    /// A request for an optimal resource goes by pages of the desk's granularity (`GpuAllocator::alloc_optimal`). So
    /// none of its requested bytes shares a page with a byte of a linear block. With a granularity of 1 it is served as
    /// any other.
    ///
    /// At most 64 questions are asked: two for each of at most 32 candidates, for an object and for its mapping. So
    /// none is open after 64 answers.
    #[tactic(auto, unfolding(crate::specs::Calls::AllocationDenied))]
    pub fn alloc(
        &mut self,
        request: Request,
        wish: Wish,
        answers: &[Answered],
    ) -> Result<Grant, Denial>
        ensures granted { IfOk result (Allocated self.old request wish answers.now self.new) }
        ensures denied { IfErr result (AllocationDenied self.old request wish answers.now) }
        ensures asks { (question : Question) (own : Bool) → result ≡ Err (Denial.Open question own)
            → length answers.now < 64 }
        ensures own { (size memory_type flags : ℕ) → result ≡ Err (Denial.Open (Question.Allocate size memory_type flags) true)
            → size ≡ request.size }
        ensures unchanged { OnErr result (IsAsBefore self.old self.new) }
        ensures keeps { KeepsDesk self.old self.new }
    {
        if let Some(fault) = self.request_fault(request) {
            return Err(Denial::Fault(fault));
        }
        if make_room(&mut self.blocks, &mut self.tags).is_err() {
            return Err(Denial::Fault(Fault::NoMemory));
        }
        let Ok(()) = self.device.begin(answers) else {
            return Err(Denial::Fault(Fault::NoMemory));
        };
        let remaining = self.allocator.remaining_allocations();
        let told = self.device.gone().len();
        let answer = allocate(
            &mut self.allocator,
            &mut self.device,
            request,
            wish,
            self.granularity,
        );
        self.device.forget_gone_after(told);
        match answer {
            Ok(block) => {
                let fresh = self.allocator.remaining_allocations() < remaining;
                let tag = Tag {
                    user: wish.user,
                    asked: request.size,
                    optimal: wish.optimal,
                };
                Ok(keep(&mut self.blocks, &mut self.tags, block, fresh, tag))
            }
            Err(refusal) => {
                let pending = self.device.open();
                let own = asks_own(&self.allocator, request, wish, self.granularity, pending);
                Err(denial_after(&self.device, own, Denial::Refused(refusal)))
            }
        }
    }

    /// Imports a range of the caller's own object as a block, as `GpuAllocator::import_memory` does. The object is not
    /// mapped, and has `object_size` bytes of the memory type. It is held from then on under the name in the grant, and
    /// is released with its block. The caller's value is 0, the requested size is the size, and the block counts as
    /// linear, though it has its object alone.
    ///
    /// It denies an import that misses a condition, with its first fault, and `Fault::NoMemory` for want of memory.
    /// Nothing has changed then, and the object stays the caller's.
    pub fn import(
        &mut self,
        memory_type: u32,
        object_size: u64,
        offset: u64,
        size: u64,
    ) -> Result<Grant, Denial>
        ensures granted { IfOk result (Imported self.old memory_type object_size offset size self.new) }
        ensures denied { IfErr result (ImportDenied self.old memory_type object_size offset size) }
        ensures unchanged { OnErr result (IsAsBefore self.old self.new) }
        ensures keeps { KeepsDesk self.old self.new }
    {
        let fault = import_fault(
            &self.allocator,
            &self.offer,
            memory_type,
            object_size,
            offset,
            size,
        );
        if let Some(fault) = fault {
            return Err(Denial::Fault(fault));
        }
        if make_room(&mut self.blocks, &mut self.tags).is_err() {
            return Err(Denial::Fault(Fault::NoMemory));
        }
        // The device takes this as its own answer: the caller has made the object.
        let flags = self.offer.flags();
        let question = Question::Allocate {
            size: object_size,
            memory_type,
            flags: flags.bits(),
        };
        let answer = Answer::Granted;
        let Ok(()) = self.device.begin(&[Answered { question, answer }]) else {
            return Err(Denial::Fault(Fault::NoMemory));
        };
        let told = self.device.gone().len();
        let made = self.device.allocate_memory(object_size, memory_type, flags);
        made_objects_may_be_imported(&self.allocator, &self.device, &made);
        let Ok(memory) = made else {
            return Err(Denial::Fault(Fault::NoMemory));
        };
        let props = self.offer.props(memory_type);
        match self
            .allocator
            .import_memory(memory, memory_type, props, offset, size)
        {
            Ok(block) => {
                let tag = Tag {
                    user: 0,
                    asked: size,
                    optimal: false,
                };
                Ok(keep(&mut self.blocks, &mut self.tags, block, false, tag))
            }
            Err(memory) => {
                self.device.deallocate_memory(&memory);
                objects_of_others_may_go(&self.allocator, &self.device);
                self.device.forget_gone_after(told);
                Err(Denial::Fault(Fault::NoMemory))
            }
        }
    }

    /// Frees a block, mapped or not, as `GpuAllocator::dealloc` does. The names of the objects that are released with
    /// it are read by [`next_gone`](Desk::next_gone). The key is never valid again. It allocates nothing.
    ///
    /// It denies a key that has no live block with `Fault::UnknownName`. Nothing has changed then.
    pub fn free(&mut self, key: u64) -> Result<(), Denial>
        ensures freed { OnOk result (Returns self.old key self.new) }
        ensures denied { IfErr result (IsUnknown self.old key) }
        ensures unchanged { OnErr result (self.new ≡ self.old) }
        ensures keeps { KeepsDesk self.old self.new }
    {
        match self.blocks.remove(key) {
            Some(block) => {
                self.allocator.dealloc(&mut self.device, block);
                Ok(())
            }
            None => { Err(Denial::Fault(Fault::UnknownName)) }
        }
    }

    /// Releases each object that no block needs, as `GpuAllocator::cleanup` does. Their names are read by
    /// [`next_gone`](Desk::next_gone). Where no block is live, nothing is held then. It allocates nothing and cannot
    /// fail.
    pub fn cleanup(&mut self)
        ensures cleaned { CleansUp self.old self.new }
        ensures keeps { KeepsDesk self.old self.new }
    {
        self.allocator.cleanup(&mut self.device);
    }
}
