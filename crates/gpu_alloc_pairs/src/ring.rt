//! The ring of the ready pairs of a slab. A pair joins and leaves it in constant time, whatever its length.

ghost use Rattle.std.specs.Prelude.{◌≡◌, Some};
ghost use Rattle.slab.specs.Slab.{get};
ghost use Rattle.gpu_alloc_pairs.specs.Links.{IsLinked, IsLinkedWith, IsOff, IsOfState, IsOn, KeepsPairs};
ghost use Rattle.gpu_alloc_pairs.specs.Links.{SetsNext, SetsPrev, next_in, prev_in, free_side};
ghost use Rattle.gpu_alloc_pairs.specs.Ring.{IsRing};

use crate::pair::{Pair, Side, State};
use slab::Slab;
use std::alloc::Allocator;
use std::mem::replace;

/// Makes this pair the next one of a ready pair.
fn set_next<A: Allocator>(pairs: &mut Slab<Pair, A>, key: usize, value: usize)
    requires on { IsOn pairs.old key }
    ensures sets { SetsNext pairs.old pairs.new key value }
{
    if let State::Ready { next, .. } = &mut pairs[key].state {
        *next = value;
    }
}

/// Makes this pair the one before a ready pair, and returns the one that was before it.
fn replace_prev<A: Allocator>(pairs: &mut Slab<Pair, A>, key: usize, value: usize) -> usize
    requires on { IsOn pairs.old key }
    ensures had { result ≡ prev_in pairs.old key }
    ensures sets { SetsPrev pairs.old pairs.new key value }
{
    match &mut pairs[key].state {
        State::Ready { prev, .. } => replace(prev, value),
        State::Exhausted => unreachable!(),
    }
}

/// Opens the ring for a pair that is not in it, between the last pair and the first. Returns the state for the pair
/// under this key, which is then the first.
pub fn link<A: Allocator>(
    pairs: &mut Slab<Pair, A>,
    first: Option<usize>,
    key: usize,
    side: Side,
) -> State
    requires linked { IsLinked pairs.old first }
    requires off { IsOff (get pairs.old key) }
    ensures keeps { KeepsPairs pairs.old pairs.new }
    ensures free { free_side result ≡ Some side }
    ensures linked { IsLinkedWith pairs.new key (IsOfState result) (Some key) }
{
    match first {
        None => State::Ready {
            side,
            next: key,
            prev: key,
        },
        Some(first) => {
            let last = replace_prev(pairs, first, key);
            set_next(pairs, last, key);
            State::Ready {
                side,
                next: first,
                prev: last,
            }
        }
    }
}

/// Closes the ring over a ready pair between these two. Returns the first pair of the rest. The pair under this key
/// must then be exhausted, or removed.
pub fn unlink<A: Allocator>(
    pairs: &mut Slab<Pair, A>,
    key: usize,
    next: usize,
    prev: usize,
) -> Option<usize>
    requires ring { IsRing (IsOn pairs.old) (next_in pairs.old) (prev_in pairs.old) }
    requires on { IsOn pairs.old key }
    requires next { next ≡ next_in pairs.old key }
    requires prev { prev ≡ prev_in pairs.old key }
    ensures keeps { KeepsPairs pairs.old pairs.new }
    ensures linked { IsLinkedWith pairs.new key IsOff result }
{
    if prev == key {
        return None;
    }
    set_next(pairs, prev, next);
    replace_prev(pairs, next, prev);
    Some(next)
}
