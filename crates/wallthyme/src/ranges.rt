//! The calls that map blocks, and that say what to flush.

ghost use Rattle.std.specs.Prelude.{◌≡◌, ◌≢◌, ◌↔◌, ◌⊎◌, IsNone, None, Some, length, map};
ghost use Rattle.gpu_desk.specs.Calls.{IsAsBefore, KeepsDesk, MapDenied, Maps, RangeDenied, RangeTold, Unmaps};
ghost use Rattle.wallthyme.specs.Handles.{KeepsSound, NoBlock, OnDesks, desk_of};
ghost use Rattle.wallthyme.specs.Malformed.{AreAnswered, HasNoAnswer, IsAsked};
ghost use Rattle.wallthyme.specs.Status.{Denies, LeavesOpen};
ghost use Rattle.wallthyme.specs.Layout.{answered_of, object_range_of};

use crate::answers::{answers_of, denied_or_asked};
use crate::handle::Handle;
use crate::kept::KeptDesk;
use crate::layout;
use crate::status::{ASK, BAD_ANSWER, NOT_OPEN, OK, UNKNOWN_KEY, denied};
use gpu_desk::{Answered, Desk};
use std::alloc::Global;

/// No object: the names of objects begin at 1.
const NO_OBJECT: u64 = 0;

#[unsafe(no_mangle)]
pub extern "C" fn wt_map(
    alloc: Global,
    handle: &mut Handle,
    key: u64,
    offset: u64,
    size: u64,
    asked: &[layout::Question],
    mapped: &mut layout::Range,
    question: &mut layout::Question,
) -> u32
    ensures closed { (result ≡ NOT_OPEN) ↔ IsNone (desk_of handle.old) }
    ensures mapped { result ≡ OK → OnDesks (λ old new.
        Maps old key offset size (map answered_of asked.now) new (object_range_of mapped.new)) handle.old handle.new }
    ensures asks { result ≡ ASK → OnDesks (λ old _. LeavesOpen (MapDenied old key offset size (map answered_of asked.now))
        question.new) handle.old handle.new }
    ensures denied { result ≢ OK → result ≢ NOT_OPEN
        → ((result ≡ BAD_ANSWER) × HasNoAnswer asked.now) ⊎ OnDesks (λ old _.
        Denies (MapDenied old key offset size (map answered_of asked.now)) result) handle.old handle.new }
    ensures formed { (result ≡ OK) ⊎ (result ≡ ASK) → AreAnswered asked.now }
    ensures unanswered { result ≡ ASK → IsAsked question.new }
    ensures limit { result ≡ ASK → length asked.now ≡ 0 }
    ensures kept { result ≢ OK → mapped.new ≡ mapped.old }
    ensures question_kept { result ≢ ASK → question.new ≡ question.old }
    ensures unchanged { result ≢ OK → OnDesks IsAsBefore handle.old handle.new }
    ensures keeps { OnDesks KeepsSound handle.old handle.new }
{
    let Some(mut kept) = handle.take(alloc) else {
        return NOT_OPEN;
    };
    let part = BlockPart { key, offset, size };
    let open: &mut KeptDesk = &mut kept;
    let status = map_part(
        &mut open.answers,
        &mut open.desk,
        part,
        asked,
        mapped,
        question,
    );
    handle.put(kept);
    status
}

/// Some bytes of a block.
#[derive(Clone, Copy)]
struct BlockPart {
    key: u64,

    /// Where they start, in bytes from the block's start.
    offset: u64,
    size: u64,
}

#[tactic(auto, using(crate::proofs::Same::same))]
fn map_part(
    answers: &mut Vec<Answered>,
    desk: &mut Desk,
    part: BlockPart,
    asked: &[layout::Question],
    mapped: &mut layout::Range,
    question: &mut layout::Question,
) -> u32
    ensures is_open { result ≢ NOT_OPEN }
    ensures mapped { result ≡ OK → Maps desk.old part.key part.offset part.size (map answered_of asked.now) desk.new
        (object_range_of mapped.new) }
    ensures asks { result ≡ ASK → LeavesOpen (MapDenied desk.old part.key part.offset part.size (map answered_of asked.now))
        question.new }
    ensures denied { result ≢ OK → ((result ≡ BAD_ANSWER) × HasNoAnswer asked.now)
        ⊎ Denies (MapDenied desk.old part.key part.offset part.size (map answered_of asked.now)) result }
    ensures formed { (result ≡ OK) ⊎ (result ≡ ASK) → AreAnswered asked.now }
    ensures unanswered { result ≡ ASK → IsAsked question.new }
    ensures limit { result ≡ ASK → length asked.now ≡ 0 }
    ensures kept { result ≢ OK → mapped.new ≡ mapped.old }
    ensures question_kept { result ≢ ASK → question.new ≡ question.old }
    ensures unchanged { result ≢ OK → IsAsBefore desk.old desk.new }
    ensures keeps { KeepsDesk desk.old desk.new }
{
    if let Err(unread) = answers_of(answers, asked) {
        return unread.status(desk.map_fault(part.key, part.offset, part.size));
    }
    match desk.map(part.key, part.offset, part.size, answers) {
        Ok(range) => {
            *mapped = range.into();
            OK
        }
        Err(denial) => denied_or_asked(denial, question),
    }
}

#[unsafe(no_mangle)]
pub extern "C" fn wt_unmap(alloc: Global, handle: &mut Handle, key: u64, object: &mut u64) -> u32
    ensures closed { (result ≡ NOT_OPEN) ↔ IsNone (desk_of handle.old) }
    ensures status { (result ≡ OK) ⊎ ((result ≡ NOT_OPEN) ⊎ (result ≡ UNKNOWN_KEY)) }
    ensures unmapped { result ≡ OK → OnDesks (λ old new.
        Unmaps old key new (Some object.new) ⊎ (Unmaps old key new None × (object.new ≡ NO_OBJECT)))
        handle.old handle.new }
    ensures unknown { result ≢ OK → OnDesks (λ old _. NoBlock old key) handle.old handle.new }
    ensures kept { result ≢ OK → object.new ≡ object.old }
    ensures unchanged { result ≢ OK → desk_of handle.new ≡ desk_of handle.old }
    ensures keeps { OnDesks KeepsSound handle.old handle.new }
{
    let Some(mut kept) = handle.take(alloc) else {
        return NOT_OPEN;
    };
    let unmapped = kept.desk.unmap(key);
    handle.put(kept);
    match unmapped {
        Ok(Some(name)) => {
            *object = name;
            OK
        }
        Ok(None) => {
            *object = NO_OBJECT;
            OK
        }
        Err(denial) => denied(denial),
    }
}

#[unsafe(no_mangle)]
pub extern "C" fn wt_range_of(
    alloc: Global,
    handle: &mut Handle,
    key: u64,
    offset: u64,
    size: u64,
    range: &mut layout::Range,
) -> u32
    ensures closed { (result ≡ NOT_OPEN) ↔ IsNone (desk_of handle.old) }
    ensures told { result ≡ OK → OnDesks (λ old _. RangeTold old key offset size (object_range_of range.new))
        handle.old handle.new }
    ensures denied { result ≢ OK → result ≢ NOT_OPEN → OnDesks (λ old _.
        Denies (RangeDenied old key offset size) result) handle.old handle.new }
    ensures kept { result ≢ OK → range.new ≡ range.old }
    ensures same { desk_of handle.new ≡ desk_of handle.old }
{
    let Some(kept) = handle.take(alloc) else {
        return NOT_OPEN;
    };
    let found = kept.desk.range(key, offset, size);
    handle.put(kept);
    match found {
        Ok(found) => {
            *range = found.into();
            OK
        }
        Err(denial) => denied(denial),
    }
}
