//! The pairs of all lengths: how a free half is found, taken, split and released.

ghost use Rattle.std.specs.Prelude.{◌≡◌, ◌≤◌, ◌<◌, ◌+◌, ◌^◌, ℕ, OnOk, IfOk, Some, None, IfSome, IfNone, length, slice_index_or, false};
ghost use Rattle.slab.specs.Slab.{HasRoomFor};
ghost use Rattle.gpu_alloc_pairs.specs.Entry.{half_start};
ghost use Rattle.gpu_alloc_base.specs.Pieces.{IsCanonical};
ghost use Rattle.gpu_alloc_pairs.specs.Halves.{free_pieces};
ghost use Rattle.gpu_alloc_pairs.specs.Length.{AreBounded};
ghost use Rattle.gpu_alloc_pairs.specs.InHand.{AddsPair, IsSplitting, IsTakenMore, IsTakenOut};
ghost use Rattle.gpu_alloc_pairs.specs.Lengths.{ComesBack, FewReleases, FindsNone, FindsNoneUpTo, GoesWhole, HasPair};
ghost use Rattle.gpu_alloc_pairs.specs.Lengths.{HasRoomsFor, HasSameSlots, IsFound, IsFreeHalf, IsFrontTaken, KeepsShorter};
ghost use Rattle.gpu_alloc_pairs.specs.Lengths.{LooksUpTo, Releases, StaysFree, TakesHalf, dividing, front_of, hand_of};
ghost use Rattle.gpu_alloc_pairs.specs.Lengths.{whole_of};
ghost use Rattle.gpu_alloc_pairs.specs.Space.{BuddySpace, IsFreeAt};
ghost use Rattle.gpu_alloc_pairs.specs.Tree.{IsReady, IsTree, no_pairs, pair_at};
ghost use Rattle.gpu_alloc_pairs.specs.declared.pair.Side.{Side as SideOf};

use crate::length::{Half, Length, Whole};
use crate::pair::{Parent, Side};
use gpu_alloc_base::Piece;
use gpu_alloc_base::steps::Steps;
use std::alloc::{AllocError, Allocator};
use std::sync::ledger::Ledger;

/// The pairs of each length, by the order of their halves.
pub type Lengths<A> = Vec<Length<A>, A>;

/// How many lengths there are: halves have 2^0 to 2^62 bytes.
pub const ORDERS: u32 = 63;

/// A half that is to be divided.
#[derive(Clone, Copy)]
pub struct Hand {
    /// The key of its chunk.
    pub chunk: usize,

    /// Where it starts in the chunk, in bytes.
    pub offset: u64,

    /// Its length is 2 to this power, in bytes.
    pub order: u32,

    /// Its pair, and which half of that pair it is.
    pub parent: Parent,
}

/// A free half, with the order of its length.
#[derive(Clone, Copy)]
pub struct Found {
    pub order: u32,
    pub half: Half,
}

/// Looks at one length for a free half. Each look is counted here.
fn look<A: Allocator, L: Ledger>(
    lengths: &[Length<A>],
    order: usize,
    looks: &mut Steps<L>,
) -> Option<Half>
    requires in_range { order < length lengths.now }
    ensures none { IfNone result (FindsNone (pair_at lengths.now) order) }
    ensures some { IfSome result (IsFreeHalf (pair_at lengths.now) order) }
    ensures counted { looks.new ≡ looks.old + 1 }
{
    looks.tick();
    lengths[order].first()
}

/// Divides the half in hand into a pair whose right half is free. Returns its key. Each split is counted here.
fn split<A: Allocator, K: Ledger>(
    lengths: &mut Lengths<A>,
    hand: Hand,
    order: u32,
    divided: bool,
    splits: &mut Steps<K>,
) -> usize
    requires in_range { order < length lengths.old.items }
    requires room { HasRoomFor (slice_index_or lengths.old.items order no_pairs) 1 }
    ensures adds { AddsPair (pair_at lengths.old.items) (pair_at lengths.new.items) order result
        (dividing (hand_of hand) (Some hand.parent) divided) }
    ensures count { length lengths.new.items ≡ length lengths.old.items }
    ensures shorter { KeepsShorter lengths.old.items lengths.new.items order }
    ensures counted { splits.new ≡ splits.old + 1 }
{
    splits.tick();
    lengths[order as usize].add(hand.chunk, hand.offset, Some(hand.parent), divided)
}

/// Releases a half of a pair. Each release is counted here.
fn release<A: Allocator, K: Ledger>(
    lengths: &mut Lengths<A>,
    order: u32,
    key: usize,
    side: Side,
    releases: &mut Steps<K>,
) -> Option<Whole>
    requires in_range { order < length lengths.old.items }
    requires used { HasPair (pair_at lengths.old.items) order key side }
    ensures releases { Releases (pair_at lengths.old.items) (pair_at lengths.new.items) order key side result }
    ensures count { length lengths.new.items ≡ length lengths.old.items }
    ensures counted { releases.new ≡ releases.old + 1 }
{
    releases.tick();
    lengths[order as usize].release(key, side)
}

/// A free half of the first length from `order` on that has one.
pub fn find<A: Allocator, L: Ledger>(
    lengths: &[Length<A>],
    order: u32,
    looks: &mut Steps<L>,
) -> Option<Found>
    requires all { length lengths.now ≡ 63 }
    requires in_range { order < 63 }
    ensures none { IfNone result (FindsNoneUpTo (pair_at lengths.now) order 63) }
    ensures some { IfSome result (IsFound (pair_at lengths.now) order) }
    ensures looked { LooksUpTo order result looks.old looks.new }
{
    for n in order as usize..ORDERS as usize {
        if let Some(half) = look(lengths, n, looks) {
            return Some(Found {
                order: n as u32,
                half,
            });
        }
    }
    None
}

/// Makes room for one more pair of each order from `low` up to `high`. No pair changes, even after an error.
pub fn make_room<A: Allocator>(
    lengths: &mut Lengths<A>,
    low: u32,
    high: u32,
) -> Result<(), AllocError>
    requires in_range { high ≤ length lengths.old.items }
    ensures kept { HasSameSlots lengths.old.items lengths.new.items }
    ensures rooms { OnOk result (HasRoomsFor lengths.new.items low high) }
{
    for n in low..high {
        lengths[n as usize].reserve()?;
    }
    Ok(())
}

/// Divides a half in hand until its front has this order: the left half of the pair whose key it returns.
fn split_down<A: Allocator, K: Ledger>(
    lengths: &mut Lengths<A>,
    hand: Hand,
    order: u32,
    splits: &mut Steps<K>,
) -> usize
    requires longer { order < hand.order }
    requires in_range { hand.order ≤ length lengths.old.items }
    requires rooms { HasRoomsFor lengths.old.items order hand.order }
    ensures out { (s : BuddySpace) → IsSplitting (pair_at lengths.old.items) s (hand_of hand) (Some hand.parent)
        → IsTakenOut (pair_at lengths.new.items) s (front_of hand order) result SideOf.Left false }
    ensures more { IsTakenMore (pair_at lengths.old.items) (pair_at lengths.new.items) (front_of hand order) result
        SideOf.Left }
    ensures count { length lengths.new.items ≡ length lengths.old.items }
    ensures counted { splits.new + order ≡ splits.old + hand.order }
{
    let mut hand = hand;
    while hand.order > order + 1 {
        let below = hand.order - 1;
        let key = split(lengths, hand, below, true, splits);
        hand = Hand {
            order: below,
            parent: Parent {
                key,
                side: Side::Left,
            },
            ..hand
        };
    }
    split(lengths, hand, order, false, splits)
}

/// The front of a free half, as a block: where it lies, and the key of its pair.
#[derive(Clone, Copy)]
pub struct Front {
    /// The key of its chunk.
    pub chunk: usize,

    /// Where it starts in the chunk, in bytes.
    pub offset: u64,

    /// The key of its pair.
    pub key: usize,
}

/// Takes a free half, or its front of this order where it is longer.
pub fn take_front<A: Allocator, K: Ledger>(
    lengths: &mut Lengths<A>,
    found: Found,
    order: u32,
    splits: &mut Steps<K>,
) -> Front
    requires long_enough { order ≤ found.order }
    requires in_range { found.order < length lengths.old.items }
    requires free { IsFreeHalf (pair_at lengths.old.items) found.order found.half }
    requires bounded { (found.half).offset + 2 ^ found.order < 2 ^ 64 }
    requires short { found.order < 64 }
    requires rooms { HasRoomsFor lengths.old.items order found.order }
    ensures chunk { result.chunk ≡ (found.half).chunk }
    ensures offset { result.offset ≡ half_start (2 ^ found.order) (found.half).offset (found.half).side }
    ensures taken { (s : BuddySpace) → IsTree (pair_at lengths.old.items) s.chunks
        → IsCanonical (IsReady (pair_at lengths.old.items)) (IsFreeAt s)
        → IsFrontTaken (pair_at lengths.old.items) (pair_at lengths.new.items) s order result }
    ensures count { length lengths.new.items ≡ length lengths.old.items }
    ensures counted { splits.new + order ≡ splits.old + found.order }
{
    let Found {
        order: length,
        half,
    } = found;
    let offset = start_of(half, length);
    if length == order {
        take(lengths, length, half, false);
        return Front {
            chunk: half.chunk,
            offset,
            key: half.key,
        };
    }
    take(lengths, length, half, true);
    let hand = Hand {
        chunk: half.chunk,
        offset,
        order: length,
        parent: Parent {
            key: half.key,
            side: half.side,
        },
    };
    let key = split_down(lengths, hand, order, splits);
    Front {
        chunk: half.chunk,
        offset,
        key,
    }
}

/// Where a half starts in its chunk, in bytes.
fn start_of(half: Half, order: u32) -> u64
    requires short { order < 64 }
    requires bounded { half.offset + 2 ^ order < 2 ^ 64 }
    ensures { result ≡ half_start (2 ^ order) half.offset half.side }
{
    match half.side {
        Side::Left => half.offset,
        Side::Right => half.offset + (1 << order),
    }
}

/// Takes a free half, to be divided by a pair or as a live block.
fn take<A: Allocator>(lengths: &mut Lengths<A>, order: u32, half: Half, divided: bool)
    requires in_range { order < length lengths.old.items }
    requires free { IsFreeHalf (pair_at lengths.old.items) order half }
    ensures sets { TakesHalf (pair_at lengths.old.items) (pair_at lengths.new.items) order half divided }
    ensures count { length lengths.new.items ≡ length lengths.old.items }
    ensures shorter { KeepsShorter lengths.old.items lengths.new.items order }
{
    lengths[order as usize].take(half, divided);
}

/// Divides a new chunk until its front has this order. Returns the key of the front's pair.
pub fn begin<A: Allocator, K: Ledger>(
    lengths: &mut Lengths<A>,
    chunk: usize,
    chunk_order: u32,
    order: u32,
    splits: &mut Steps<K>,
) -> usize
    requires longer { order < chunk_order }
    requires in_range { chunk_order ≤ length lengths.old.items }
    requires rooms { HasRoomsFor lengths.old.items order chunk_order }
    ensures out { (s : BuddySpace) → IsSplitting (pair_at lengths.old.items) s (whole_of chunk chunk_order) None
        → IsTakenOut (pair_at lengths.new.items) s (whole_of chunk order) result SideOf.Left false }
    ensures more { IsTakenMore (pair_at lengths.old.items) (pair_at lengths.new.items) (whole_of chunk order) result
        SideOf.Left }
    ensures count { length lengths.new.items ≡ length lengths.old.items }
    ensures counted { splits.new + order + 1 ≡ splits.old + chunk_order }
{
    let top = chunk_order - 1;
    if top == order {
        return halve(lengths, chunk, top, false);
    }
    let key = halve(lengths, chunk, top, true);
    let hand = Hand {
        chunk,
        offset: 0,
        order: top,
        parent: Parent {
            key,
            side: Side::Left,
        },
    };
    split_down(lengths, hand, order, splits)
}

/// Divides a new chunk into two halves of this order, of which the right one is free. Returns the key of that pair.
fn halve<A: Allocator>(lengths: &mut Lengths<A>, chunk: usize, order: u32, divided: bool) -> usize
    requires in_range { order < length lengths.old.items }
    requires room { HasRoomFor (slice_index_or lengths.old.items order no_pairs) 1 }
    ensures adds { AddsPair (pair_at lengths.old.items) (pair_at lengths.new.items) order result
        (dividing (whole_of chunk (order + 1)) None divided) }
    ensures count { length lengths.new.items ≡ length lengths.old.items }
    ensures shorter { KeepsShorter lengths.old.items lengths.new.items order }
{
    lengths[order as usize].add(chunk, 0, None, divided)
}

/// Releases a half. Where the other half of its pair is free too, the half that the pair divides is released next, and
/// so on. Returns the key of the chunk if it is then wholly free.
pub fn put_back<A: Allocator, K: Ledger>(
    lengths: &mut Lengths<A>,
    order: u32,
    key: usize,
    side: Side,
    releases: &mut Steps<K>,
) -> Option<usize>
    requires all { length lengths.old.items ≡ 63 }
    requires returning { ComesBack (pair_at lengths.old.items) order key side }
    ensures stays { IfNone result (StaysFree (pair_at lengths.old.items) (pair_at lengths.new.items) order key side) }
    ensures goes { IfSome result (GoesWhole (pair_at lengths.old.items) (pair_at lengths.new.items) order key side) }
    ensures count { length lengths.new.items ≡ length lengths.old.items }
    ensures counted { releases.old < releases.new }
    ensures few { FewReleases (pair_at lengths.old.items) order key side releases.old releases.new }
{
    let mut length = order;
    let mut pair = key;
    let mut half = side;
    while let Some(whole) = release(lengths, length, pair, half, releases) {
        let Some(parent) = whole.parent else {
            return Some(whole.chunk);
        };
        length += 1;
        pair = parent.key;
        half = parent.side;
    }
    None
}

/// The free halves of all lengths, as pieces.
pub fn free_pieces<A: Allocator + Copy>(lengths: &Lengths<A>) -> Result<Vec<Piece, A>, AllocError>
    requires all { length lengths.now.items ≡ 63 }
    requires bounded { (n : ℕ) → AreBounded n (slice_index_or lengths.now.items n no_pairs) }
    ensures { IfOk result (λ pieces. pieces.items ≡ free_pieces lengths.now.items) }
{
    let mut pieces = Vec::new(*lengths.allocator());
    for n in 0..ORDERS {
        lengths[n as usize].list_free(n, &mut pieces)?;
    }
    Ok(pieces)
}
