//! How a live tile is freed, and joined with the free tiles next to it.

ghost use Rattle.std.specs.Prelude.{◌≡◌, ◌==◌, ◌<◌, ◌+◌, ℕ, IfSome, None, Option, Some, true, false, cond};
ghost use Rattle.slab.specs.Slab.{get};
ghost use Rattle.gpu_alloc_runs.specs.Classes.{AreMarked};
ghost use Rattle.gpu_alloc_runs.specs.Filed.{AreFreeFiled, AreFreeFiledBut, KeepsEnds};
ghost use Rattle.gpu_alloc_runs.specs.Inside.{chunk_size_in};
ghost use Rattle.gpu_alloc_runs.specs.Links.{AreNodesKept, AreNodesKeptBut, with_free};
ghost use Rattle.gpu_alloc_runs.specs.Space.{neighbours_in};
ghost use Rattle.gpu_alloc_runs.specs.Tiles.{IsFirst, IsFreeTileOf, KeepsElsewhere, KeepsLive, PutsTileBack, tile_in};
ghost use Rattle.gpu_alloc_runs.specs.declared.classes.Classes.{Classes as ClassesOf};
ghost use Rattle.gpu_alloc_runs.specs.declared.classes.TheConstants.{CLASSES};
ghost use Rattle.gpu_alloc_runs.specs.declared.tile.Tile.{Tile as TileOf};

use crate::classes::{Classes, class_of, unfile};
use crate::fits::Chunk;
use crate::tile::{Node, Place, Tile, bytes_of, look, set_before, set_end, set_free};
use gpu_alloc_base::steps::Steps;
use gpu_alloc_types::MemoryObject;
use slab::Slab;
use std::alloc::Allocator;
use std::sync::ledger::Ledger;

/// A free tile that was joined with others: its key, and the class in whose list it stands, if it is in one.
#[derive(Clone, Copy)]
pub(crate) struct Joint {
    pub(crate) key: usize,
    pub(crate) class: Option<usize>,
}

/// Frees a live tile and joins it with the free ones next to it. Returns the joint, which is still to be filed. Its key
/// is that of the free tile before it, or else its own. `looks` counts the tiles that are looked at: its neighbours. It
/// allocates nothing.
#[inline(always)]
pub(crate) fn put_back<M: MemoryObject, A: Allocator, L: Ledger>(
    nodes: &mut Slab<Node, A>,
    classes: &mut Classes,
    chunks: &Slab<Chunk<M>, A>,
    place: Place,
    looks: &mut Steps<L>,
) -> (Tile, Joint)
    requires kept { AreNodesKept (chunk_size_in chunks.now) nodes.old }
    requires filed { AreFreeFiled nodes.old classes.old }
    requires at { get nodes.old place.key ≡ Some place.node }
    requires live { place.node.tile.free ≡ false }
    requires whole { chunk_size_in chunks.now place.node.tile.chunk ≡ place.whole }
    ensures kept { AreNodesKept (chunk_size_in chunks.now) nodes.new }
    ensures filed { AreFreeFiledBut nodes.new classes.new result.1.key result.1.class }
    ensures class { IfSome result.1.class (λ c. c < CLASSES) }
    ensures back { PutsTileBack (tile_in nodes.old) (tile_in nodes.new) place.key }
    ensures joint { IsFreeTileOf place.node.tile.chunk (tile_in nodes.new) result.1.key result.0 }
    ensures elsewhere { KeepsElsewhere place.node.tile.chunk (tile_in nodes.old) (tile_in nodes.new) }
    ensures ends { KeepsEnds place.node.tile.chunk nodes.old nodes.new }
    ensures looks { looks.new ≡ looks.old
        + neighbours_in place.whole place.node.tile.start place.node.tile.end }
{
    set_free(nodes, place.key, true);
    let joint = join_before(nodes, chunks, place, looks);
    let tile = join_after(nodes, classes, chunks, joint.key, place.whole, looks);
    (tile, joint)
}

/// Joins a tile that was freed with the free one before it, if there is one, under the key of that one.
#[inline(always)]
fn join_before<M: MemoryObject, A: Allocator, L: Ledger>(
    nodes: &mut Slab<Node, A>,
    chunks: &Slab<Chunk<M>, A>,
    place: Place,
    looks: &mut Steps<L>,
) -> Joint
    requires beside { AreNodesKeptBut (chunk_size_in chunks.now) place.key nodes.old }
    requires at { get nodes.old place.key ≡ Some (with_free true place.node) }
    requires whole { chunk_size_in chunks.now place.node.tile.chunk ≡ place.whole }
    ensures beside { AreNodesKeptBut (chunk_size_in chunks.now) result.key nodes.new }
    ensures first { IsFirst result.key (tile_in nodes.new) }
    ensures filed { (classes : ClassesOf) → AreFreeFiledBut nodes.old classes place.key None
        → AreFreeFiledBut nodes.new classes result.key result.class }
    ensures class { IfSome result.class (λ c. c < CLASSES) }
    ensures lives { KeepsLive (tile_in nodes.old) (tile_in nodes.new) }
    ensures joint { (b : TileOf) × IsFreeTileOf place.node.tile.chunk (tile_in nodes.new) result.key b }
    ensures end { (b : TileOf) → tile_in nodes.new result.key ≡ Some b → b.end ≡ place.node.tile.end }
    ensures elsewhere { KeepsElsewhere place.node.tile.chunk (tile_in nodes.old) (tile_in nodes.new) }
    ensures ends { KeepsEnds place.node.tile.chunk nodes.old nodes.new }
    ensures looks { looks.new ≡ looks.old + cond (place.node.tile.start == 0) 0 1 }
{
    let Place { key, node, whole } = place;
    if node.tile.start == 0 {
        return Joint { key, class: None };
    }
    let other = node.before;
    let front = look(nodes, other, looks);
    if !front.tile.free {
        return Joint { key, class: None };
    }
    let _ = nodes.remove(key);
    set_end(nodes, other, node.tile.end, node.after);
    set_before(nodes, node.tile.end < whole, node.after, other);
    Joint {
        key: other,
        class: Some(class_of(bytes_of(front.tile))),
    }
}

/// Joins a free tile with the free one after it, if there is one, under its own key. Returns the joint.
#[inline(always)]
fn join_after<M: MemoryObject, A: Allocator, L: Ledger>(
    nodes: &mut Slab<Node, A>,
    classes: &mut Classes,
    chunks: &Slab<Chunk<M>, A>,
    key: usize,
    whole: u64,
    looks: &mut Steps<L>,
) -> Tile
    requires beside { AreNodesKeptBut (chunk_size_in chunks.now) key nodes.old }
    requires whole { (a : TileOf) → tile_in nodes.old key ≡ Some a → chunk_size_in chunks.now a.chunk ≡ whole }
    requires first { IsFirst key (tile_in nodes.old) }
    requires marked { AreMarked classes.old }
    ensures kept { AreNodesKept (chunk_size_in chunks.now) nodes.new }
    ensures filed { (class : Option ℕ) → AreFreeFiledBut nodes.old classes.old key class
        → AreFreeFiledBut nodes.new classes.new key class }
    ensures marked { AreMarked classes.new }
    ensures lives { KeepsLive (tile_in nodes.old) (tile_in nodes.new) }
    ensures joint { (a : TileOf) → tile_in nodes.old key ≡ Some a → IsFreeTileOf a.chunk (tile_in nodes.new) key result }
    ensures elsewhere { (a : TileOf) → tile_in nodes.old key ≡ Some a
        → KeepsElsewhere a.chunk (tile_in nodes.old) (tile_in nodes.new) }
    ensures ends { (class : Option ℕ) → AreFreeFiledBut nodes.old classes.old key class → (a : TileOf)
        → tile_in nodes.old key ≡ Some a → KeepsEnds a.chunk nodes.old nodes.new }
    ensures looks { (a : TileOf) → tile_in nodes.old key ≡ Some a
        → looks.new ≡ looks.old + cond (a.end == whole) 0 1 }
{
    let node = nodes[key];
    if node.tile.end == whole {
        return node.tile;
    }
    let other = node.after;
    let back = look(nodes, other, looks);
    if !back.tile.free {
        return node.tile;
    }
    unfile(nodes, classes, other, class_of(bytes_of(back.tile)));
    let _ = nodes.remove(other);
    set_end(nodes, key, back.tile.end, back.after);
    set_before(nodes, back.tile.end < whole, back.after, key);
    Tile {
        chunk: node.tile.chunk,
        start: node.tile.start,
        end: back.tile.end,
        free: true,
    }
}
