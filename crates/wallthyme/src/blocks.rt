//! The calls that allocate, import and free blocks.

ghost use Rattle.std.specs.Prelude.{◌≡◌, ◌≢◌, ◌↔◌, ◌⊎◌, ◌<◌, [], IsNone, length, true};
ghost use Rattle.gpu_desk.specs.Calls.{AllocatedHeld, HeldDenied, ImportDenied, Imported, IsAsBefore, KeepsDesk, Returns, SetsUser, Told};
ghost use Rattle.wallthyme.specs.Allocating.{IsAllocated, IsDenied};
ghost use Rattle.wallthyme.specs.Handles.{KeepsBut, KeepsSound, NoBlock, OnDesks, desk_of};
ghost use Rattle.wallthyme.specs.Malformed.{HasFlags, IsAsked, IsMalformed, IsWellFormedRequest};
ghost use Rattle.wallthyme.specs.Status.{Denies, LeavesOpen};
ghost use Rattle.wallthyme.specs.Layout.{asks_own_object, grant_of, is_held_only};

use crate::answers::{answers_of, are_answered, denied_or_asked};
use crate::handle::Handle;
use crate::kept::KeptDesk;
use crate::layout;
use crate::status::{ASK, BAD_ANSWER, NOT_OPEN, OK, UNKNOWN_KEY, denied};
use gpu_desk::{Answered, Desk, Request, Wish};
use std::alloc::Global;

#[unsafe(no_mangle)]
pub extern "C" fn wt_alloc(
    alloc: Global,
    handle: &mut Handle,
    request: &layout::Request,
    asked: &[layout::Question],
    block: &mut layout::Block,
    question: &mut layout::Question,
) -> u32
    ensures closed { (result ≡ NOT_OPEN) ↔ IsNone (desk_of handle.old) }
    ensures granted { result ≡ OK → OnDesks (IsAllocated request.now asked.now block.new) handle.old handle.new }
    ensures asks { result ≡ ASK
        → OnDesks (λ old _. LeavesOpen (IsDenied request.now asked.now old) question.new) handle.old handle.new }
    ensures denied { result ≢ OK → result ≢ NOT_OPEN
        → IsMalformed request.now asked.now result ⊎ OnDesks (λ old _.
        Denies (IsDenied request.now asked.now old) result) handle.old handle.new }
    ensures unasked { is_held_only request.now ≡ true → result ≢ ASK }
    ensures formed { (result ≡ OK) ⊎ (result ≡ ASK) → IsWellFormedRequest request.now asked.now }
    ensures flags { result ≡ OK → HasFlags block.new }
    ensures unanswered { result ≡ ASK → IsAsked question.new }
    ensures own { result ≡ ASK → asks_own_object question.new ≡ true → question.new.size ≡ request.now.size }
    ensures limit { result ≡ ASK → length asked.now < 64 }
    ensures kept { result ≢ OK → block.new ≡ block.old }
    ensures question_kept { result ≢ ASK → question.new ≡ question.old }
    ensures unchanged { result ≢ OK → OnDesks IsAsBefore handle.old handle.new }
    ensures keeps { OnDesks KeepsSound handle.old handle.new }
{
    let Some(mut kept) = handle.take(alloc) else {
        return NOT_OPEN;
    };
    let open: &mut KeptDesk = &mut kept;
    let status = allocate(
        &mut open.answers,
        &mut open.desk,
        request,
        asked,
        block,
        question,
    );
    handle.put(kept);
    status
}

#[tactic(auto, using(crate::proofs::Same::same))]
fn allocate(
    answers: &mut Vec<Answered>,
    desk: &mut Desk,
    request: &layout::Request,
    asked: &[layout::Question],
    block: &mut layout::Block,
    question: &mut layout::Question,
) -> u32
    ensures is_open { result ≢ NOT_OPEN }
    ensures granted { result ≡ OK → IsAllocated request.now asked.now block.new desk.old desk.new }
    ensures asks { result ≡ ASK → LeavesOpen (IsDenied request.now asked.now desk.old) question.new }
    ensures denied { result ≢ OK → IsMalformed request.now asked.now result
        ⊎ Denies (IsDenied request.now asked.now desk.old) result }
    ensures unasked { is_held_only request.now ≡ true → result ≢ ASK }
    ensures formed { (result ≡ OK) ⊎ (result ≡ ASK) → IsWellFormedRequest request.now asked.now }
    ensures flags { result ≡ OK → HasFlags block.new }
    ensures unanswered { result ≡ ASK → IsAsked question.new }
    ensures own { result ≡ ASK → asks_own_object question.new ≡ true → question.new.size ≡ request.now.size }
    ensures limit { result ≡ ASK → length asked.now < 64 }
    ensures kept { result ≢ OK → block.new ≡ block.old }
    ensures question_kept { result ≢ ASK → question.new ≡ question.old }
    ensures unchanged { result ≢ OK → IsAsBefore desk.old desk.new }
    ensures keeps { KeepsDesk desk.old desk.new }
{
    let is_held_only = request.is_held_only();
    let (request, wish) = match request.to_parts() {
        Ok(parts) => parts,
        Err(status) => return status,
    };
    if is_held_only {
        if !are_answered(asked) {
            return BAD_ANSWER;
        }
        return allocate_held(desk, request, wish, block);
    }
    if let Err(unread) = answers_of(answers, asked) {
        return unread.status(desk.request_fault(request));
    }
    match desk.alloc(request, wish, answers) {
        Ok(grant) => {
            *block = grant.into();
            OK
        }
        Err(denial) => denied_or_asked(denial, question),
    }
}

/// Serves a request only from what is held.
fn allocate_held(desk: &mut Desk, request: Request, wish: Wish, block: &mut layout::Block) -> u32
    ensures is_open { result ≢ NOT_OPEN }
    ensures granted { result ≡ OK → AllocatedHeld desk.old request wish desk.new (grant_of block.new) }
    ensures denied { result ≢ OK → Denies (HeldDenied desk.old request wish) result }
    ensures flags { result ≡ OK → HasFlags block.new }
    ensures unasked { result ≢ ASK }
    ensures kept { result ≢ OK → block.new ≡ block.old }
    ensures unchanged { result ≢ OK → IsAsBefore desk.old desk.new }
    ensures keeps { KeepsDesk desk.old desk.new }
{
    match desk.alloc_held(request, wish) {
        Ok(grant) => {
            *block = grant.into();
            OK
        }
        Err(denial) => denied(denial),
    }
}

#[unsafe(no_mangle)]
pub extern "C" fn wt_import(
    alloc: Global,
    handle: &mut Handle,
    memory_type: u32,
    object_size: u64,
    offset: u64,
    size: u64,
    block: &mut layout::Block,
) -> u32
    ensures closed { (result ≡ NOT_OPEN) ↔ IsNone (desk_of handle.old) }
    ensures granted { result ≡ OK → OnDesks (λ old new.
        Imported old memory_type object_size offset size new (grant_of block.new)) handle.old handle.new }
    ensures denied { result ≢ OK → result ≢ NOT_OPEN → OnDesks (λ old _.
        Denies (ImportDenied old memory_type object_size offset size) result) handle.old handle.new }
    ensures fresh { result ≡ OK → block.new.fresh ≡ 0 }
    ensures flags { result ≡ OK → HasFlags block.new }
    ensures kept { result ≢ OK → block.new ≡ block.old }
    ensures unchanged { result ≢ OK → OnDesks IsAsBefore handle.old handle.new }
    ensures keeps { OnDesks KeepsSound handle.old handle.new }
{
    let Some(mut kept) = handle.take(alloc) else {
        return NOT_OPEN;
    };
    let imported = kept.desk.import(memory_type, object_size, offset, size);
    handle.put(kept);
    match imported {
        Ok(imported) => {
            *block = imported.into();
            OK
        }
        Err(denial) => denied(denial),
    }
}

#[unsafe(no_mangle)]
pub extern "C" fn wt_block_of(
    alloc: Global,
    handle: &mut Handle,
    key: u64,
    block: &mut layout::Block,
) -> u32
    ensures closed { (result ≡ NOT_OPEN) ↔ IsNone (desk_of handle.old) }
    ensures status { (result ≡ OK) ⊎ ((result ≡ NOT_OPEN) ⊎ (result ≡ UNKNOWN_KEY)) }
    ensures told { result ≡ OK → OnDesks (λ old _. Told old key (grant_of block.new)) handle.old handle.new }
    ensures fresh { result ≡ OK → block.new.fresh ≡ 0 }
    ensures flags { result ≡ OK → HasFlags block.new }
    ensures unknown { result ≢ OK → OnDesks (λ old _. NoBlock old key) handle.old handle.new }
    ensures kept { result ≢ OK → block.new ≡ block.old }
    ensures same { desk_of handle.new ≡ desk_of handle.old }
{
    let Some(kept) = handle.take(alloc) else {
        return NOT_OPEN;
    };
    let found = kept.desk.block(key);
    handle.put(kept);
    match found {
        Ok(found) => {
            *block = found.into();
            OK
        }
        Err(denial) => denied(denial),
    }
}

#[unsafe(no_mangle)]
pub extern "C" fn wt_set_user(alloc: Global, handle: &mut Handle, key: u64, user: u64) -> u32
    ensures closed { (result ≡ NOT_OPEN) ↔ IsNone (desk_of handle.old) }
    ensures status { (result ≡ OK) ⊎ ((result ≡ NOT_OPEN) ⊎ (result ≡ UNKNOWN_KEY)) }
    ensures set { result ≡ OK → OnDesks (λ old new. SetsUser old key user new) handle.old handle.new }
    ensures unknown { result ≢ OK → OnDesks (λ old _. NoBlock old key) handle.old handle.new }
    ensures unchanged { result ≢ OK → desk_of handle.new ≡ desk_of handle.old }
    ensures keeps { OnDesks (KeepsBut []) handle.old handle.new }
{
    let Some(mut kept) = handle.take(alloc) else {
        return NOT_OPEN;
    };
    let set = kept.desk.set_user(key, user);
    handle.put(kept);
    match set {
        Ok(()) => OK,
        Err(denial) => denied(denial),
    }
}

#[unsafe(no_mangle)]
pub extern "C" fn wt_free(alloc: Global, handle: &mut Handle, key: u64) -> u32
    ensures closed { (result ≡ NOT_OPEN) ↔ IsNone (desk_of handle.old) }
    ensures status { (result ≡ OK) ⊎ ((result ≡ NOT_OPEN) ⊎ (result ≡ UNKNOWN_KEY)) }
    ensures freed { result ≡ OK → OnDesks (λ old new. Returns old key new) handle.old handle.new }
    ensures unknown { result ≢ OK → OnDesks (λ old _. NoBlock old key) handle.old handle.new }
    ensures unchanged { result ≢ OK → desk_of handle.new ≡ desk_of handle.old }
    ensures keeps { OnDesks KeepsSound handle.old handle.new }
{
    let Some(mut kept) = handle.take(alloc) else {
        return NOT_OPEN;
    };
    let freed = kept.desk.free(key);
    handle.put(kept);
    match freed {
        Ok(()) => OK,
        Err(denial) => denied(denial),
    }
}
