//! The pairs of one length, of which those with a free half form a ring.

ghost use Rattle.std.specs.Prelude.{◌≡◌, ◌≤◌, ◌+◌, ◌++◌, [], map, ℕ, OnOk, Some, None, IfSome, IfNone, MatchOption};
ghost use Rattle.slab.specs.Slab.{ContainsKey, HasRoomFor, Updates, get, slab_len};
ghost use Rattle.gpu_alloc_pairs.specs.Entry.{entry_of, taken_as, with_use};
ghost use Rattle.gpu_alloc_pairs.specs.Halves.{halves_of_length};
ghost use Rattle.gpu_alloc_pairs.specs.Length.{AreBounded, FreesHalf, IsInUse, IsReadyHalf, IsUsedAs, Merges, SetsUse};
ghost use Rattle.gpu_alloc_pairs.specs.Links.{SetsPair, free_of};
ghost use Rattle.gpu_alloc_pairs.specs.Seen.{seen};
ghost use Rattle.gpu_alloc_pairs.specs.declared.pair.Side.{Side as SideOf};
ghost use Rattle.gpu_alloc_pairs.specs.declared.pair.Use.{Use as UseOf};

use crate::pair::{Pair, Parent, Side, State};
use crate::ring::{link, unlink};
use gpu_alloc_base::Piece;
use slab::Slab;
use std::alloc::{AllocError, Allocator, Global};
use std::marker::Model;

/// A free half, and where its pair lies.
#[derive(Clone, Copy)]
pub struct Half {
    /// The key of its pair.
    pub key: usize,

    /// Which half of the pair it is.
    pub side: Side,

    /// The key of the chunk.
    pub chunk: usize,

    /// Where the pair's left half starts in the chunk, in bytes.
    pub offset: u64,
}

/// A range whose two halves are both free.
#[derive(Clone, Copy)]
pub struct Whole {
    /// The key of the chunk.
    pub chunk: usize,

    /// Where it starts in the chunk, in bytes.
    pub offset: u64,

    /// The half that it is, one length up, or `None` where it is its whole chunk.
    pub parent: Option<Parent>,
}

/// The pairs whose halves have one length. Each keeps its key until it is removed.
#[derive(Drop)]
pub struct Length<A: Allocator = Global> {
    pairs: Slab<Pair, A>,
    first: Option<usize>,
}

impl<A: Allocator> Model for Length<A> {
    ghost use Rattle.slab.specs.Slab.{Slab as Slots, slab_code};
    ghost use Rattle.gpu_alloc_pairs.specs.Codes.{entry_code};
    ghost use Rattle.gpu_alloc_pairs.specs.Entry.{Entry};

    ghost Value = { Slots Entry };

    ghost coded = { slab_code entry_code };

    ghost use Rattle.gpu_alloc_pairs.specs.Links.{IsLinked};
    ghost use Rattle.gpu_alloc_pairs.specs.Seen.{seen};

    ghost view = { λ l. seen l.pairs };

    ghost invariant = { λ l. IsLinked l.pairs l.first };
}

impl<A: Allocator + Copy> Length<A> {
    /// No pairs. They take their memory from `alloc`; this call takes none.
    pub fn new(alloc: A) -> Self
        ensures empty { result.slots ≡ [] }
        ensures none { (key : ℕ) → get result key ≡ None }
    {
        Length {
            pairs: Slab::new(alloc),
            first: None,
        }
    }
}

impl<A: Allocator> Length<A> {
    /// Makes room for one more pair. The pairs are unchanged, even where there is no memory.
    pub fn reserve(&mut self) -> Result<(), AllocError>
        ensures room { OnOk result (HasRoomFor self.new 1) }
        ensures kept { self.new ≡ record self.old { capacity = (self.new).capacity } }
        ensures grows { (self.old).capacity ≤ (self.new).capacity }
    {
        self.pairs.reserve(1)
    }

    /// A free half, if there is one.
    pub fn first(&self) -> Option<Half>
        ensures none { IfNone result ((key : ℕ) (side : SideOf) → IsUsedAs self.now key side UseOf.Free → ⊥) }
        ensures some { IfSome result (IsReadyHalf self.now) }
    {
        let key = self.first?;
        let pair = &self.pairs[key];
        let State::Ready { side, .. } = pair.state else {
            unreachable!()
        };
        Some(Half {
            key,
            side,
            chunk: pair.chunk,
            offset: pair.offset,
        })
    }

    /// The pairs as they are stored, by key.
    #[inline(always)]
    pub fn pairs(&self) -> &Slab<Pair, A>
        ensures { seen result.now ≡ self.now }
    {
        &self.pairs
    }

    /// Takes a free half, to be divided by a pair or as a live block. Only its key and its side matter.
    pub fn take(&mut self, half: Half, divided: bool)
        requires ready { IsReadyHalf self.old half }
        ensures sets { SetsUse self.old self.new half.key half.side (taken_as divided) }
        ensures capacity { (self.new).capacity ≡ (self.old).capacity }
        ensures len { slab_len self.new ≡ slab_len self.old }
    {
        let State::Ready { next, prev, .. } = self.pairs[half.key].state else {
            unreachable!()
        };
        self.first = unlink(&mut self.pairs, half.key, next, prev);
        exhaust(&mut self.pairs, half.key, half.side, divided);
    }

    /// Adds a pair whose right half is free, where `reserve` made room, and returns its key. The left half is divided
    /// by a pair or a live block. `offset` is where it starts in the chunk, in bytes.
    pub fn add(&mut self, chunk: usize, offset: u64, parent: Option<Parent>, divided: bool) -> usize
        requires room { HasRoomFor self.old 1 }
        ensures vacant { get self.old result ≡ None }
        ensures updates { Updates self.old self.new result (Some (record {
          chunk = chunk;
          offset = offset;
          parent = parent;
          left = taken_as divided;
          right = UseOf.Free;
        })) }
        ensures capacity { (self.new).capacity ≡ (self.old).capacity }
        ensures len { slab_len self.new ≡ slab_len self.old + 1 }
    {
        let key = self.pairs.vacant_key();
        let state = link(&mut self.pairs, self.first, key, Side::Right);
        self.first = Some(key);
        self.pairs.insert_reserved(Pair {
            chunk,
            offset,
            parent,
            left_divided: divided,
            right_divided: false,
            state,
        })
    }

    /// Releases a half that is in use. Where the other half is free too, the pair is removed, and the range of both is
    /// returned.
    pub fn release(&mut self, key: usize, side: Side) -> Option<Whole>
        requires used { IsInUse self.old key side }
        ensures freed { IfNone result (FreesHalf self.old self.new key side) }
        ensures merged { IfSome result (λ w. Merges self.old self.new key side w) }
        ensures capacity { (self.new).capacity ≡ (self.old).capacity }
        ensures len { MatchOption result (slab_len self.new ≡ slab_len self.old)
            (λ _. slab_len self.new + 1 ≡ slab_len self.old) }
    {
        match self.pairs[key].state {
            State::Exhausted => {
                let state = link(&mut self.pairs, self.first, key, side);
                self.first = Some(key);
                set_state(&mut self.pairs, key, state);
                None
            }
            State::Ready { next, prev, .. } => {
                self.first = unlink(&mut self.pairs, key, next, prev);
                let pair = self.pairs.remove(key);
                Some(Whole {
                    chunk: pair.chunk,
                    offset: pair.offset,
                    parent: pair.parent,
                })
            }
        }
    }

    /// Pushes each free half as a piece of 2^order bytes, by the keys of their pairs. Each right half must start below
    /// 2^64. The only error is want of memory: some of the pieces are then pushed.
    pub fn list_free<B: Allocator>(
        &self,
        order: u32,
        pieces: &mut Vec<Piece, B>,
    ) -> Result<(), AllocError>
        requires short { order ≤ 62 }
        requires bounded { AreBounded order self.now }
        ensures listed { OnOk result (pieces.new.items ≡ pieces.old.items
            ++ map (λ h. h.piece) (halves_of_length UseOf.Free order self.now)) }
    {
        for (_, pair) in self.pairs.iter() {
            if let Some(piece) = pair.free_piece(order) {
                pieces.push(piece)?;
            }
        }
        Ok(())
    }
}

/// Takes the free half of a pair.
#[inline(always)]
fn exhaust<A: Allocator>(pairs: &mut Slab<Pair, A>, key: usize, side: Side, divided: bool)
    requires there { ContainsKey pairs.old key }
    requires free { free_of (get pairs.old key) ≡ Some side }
    ensures sets { SetsPair pairs.old pairs.new key (λ old new. (new.state ≡ State.Exhausted)
        × (entry_of new ≡ with_use (entry_of old) side (taken_as divided))) }
{
    pairs[key].exhaust(side, divided);
}

/// Sets the state of a pair.
#[inline(always)]
fn set_state<A: Allocator>(pairs: &mut Slab<Pair, A>, key: usize, state: State)
    requires there { ContainsKey pairs.old key }
    ensures sets { SetsPair pairs.old pairs.new key (λ old new. new ≡ record old { state = state }) }
{
    pairs[key].state = state;
}
