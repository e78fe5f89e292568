//! Tiles: the live blocks and free runs of the held chunks, each with the keys of its neighbours.

ghost use Rattle.std.specs.Prelude.{◌≡◌, ◌≢◌, ◌+◌, ◌-◌, ◌≤◌, None, Some, option_map};
ghost use Rattle.slab.specs.Slab.{ContainsKey, HasRoomFor, Updates, get, slab_len};
ghost use Rattle.gpu_alloc_runs.specs.Filed.{KeepsLists};
ghost use Rattle.gpu_alloc_runs.specs.Links.{SetsBefore, with_end, with_free};

use gpu_alloc_base::steps::Steps;
use slab::Slab;
use std::alloc::Allocator;
use std::sync::ledger::Ledger;

/// No key.
pub(crate) const NONE: usize = usize::MAX;

/// Bytes of a chunk: a live block, or a free run.
#[derive(Clone, Copy)]
pub(crate) struct Tile {
    /// The key of its chunk.
    pub(crate) chunk: usize,

    /// Where it starts in the chunk, in bytes.
    pub(crate) start: u64,

    /// Where it ends, in bytes.
    pub(crate) end: u64,

    /// Whether it is a free run.
    pub(crate) free: bool,
}

/// How many bytes a tile has.
#[inline(always)]
pub(crate) fn bytes_of(tile: Tile) -> u64
    requires { tile.start ≤ tile.end }
    ensures { result ≡ tile.end - tile.start }
{
    tile.end - tile.start
}

/// A tile, the keys of the tiles beside it, and its place in the list of its class while it is free.
#[derive(Clone, Copy)]
pub(crate) struct Node {
    pub(crate) tile: Tile,

    /// The tile that ends where this one starts, if its chunk has one.
    pub(crate) before: usize,

    /// The tile that starts where this one ends, if its chunk has one.
    pub(crate) after: usize,

    /// The free tile above it in the list of its class. The last one is above the first.
    pub(crate) up: usize,

    /// The free tile below it in that list, or `NONE` for the last.
    pub(crate) down: usize,
}

/// Where a tile stands: its key, its node, and the size of its chunk in bytes.
#[derive(Clone, Copy)]
pub(crate) struct Place {
    pub(crate) key: usize,
    pub(crate) node: Node,
    pub(crate) whole: u64,
}

/// A node that stands in no list of a class.
#[inline(always)]
pub(crate) fn unlisted(tile: Tile, before: usize, after: usize) -> Node
    ensures tile { result.tile ≡ tile }
    ensures before { result.before ≡ before }
    ensures after { result.after ≡ after }
{
    Node {
        tile,
        before,
        after,
        up: NONE,
        down: NONE,
    }
}

/// Looks at a tile, and counts the look.
#[inline(always)]
pub(crate) fn look<A: Allocator, L: Ledger>(
    nodes: &Slab<Node, A>,
    other: usize,
    looks: &mut Steps<L>,
) -> Node
    requires { ContainsKey nodes.now other }
    ensures node { get nodes.now other ≡ Some result }
    ensures counted { looks.new ≡ looks.old + 1 }
{
    looks.tick();
    nodes[other]
}

/// Adds a tile, for which there is room, and returns its key.
#[inline(always)]
pub(crate) fn add<A: Allocator>(nodes: &mut Slab<Node, A>, node: Node) -> usize
    requires { HasRoomFor nodes.old 1 }
    ensures was_vacant { get nodes.old result ≡ None }
    ensures updates { Updates nodes.old nodes.new result (Some node) }
    ensures keyed { result ≢ NONE }
    ensures len { slab_len nodes.new ≡ slab_len nodes.old + 1 }
    ensures capacity { (nodes.new).capacity ≡ (nodes.old).capacity }
{
    let most = nodes.capacity();
    let key = nodes.insert_reserved(node);
    prove!(key < most);
    key
}

/// Writes whether a tile is free.
#[inline(always)]
pub(crate) fn set_free<A: Allocator>(nodes: &mut Slab<Node, A>, key: usize, free: bool)
    requires { ContainsKey nodes.old key }
    ensures updates { Updates nodes.old nodes.new key (option_map (with_free free) (get nodes.old key)) }
    ensures lists { KeepsLists nodes.old nodes.new }
    ensures len { slab_len nodes.new ≡ slab_len nodes.old }
    ensures capacity { (nodes.new).capacity ≡ (nodes.old).capacity }
{
    let node = &mut nodes[key];
    node.tile.free = free;
}

/// Writes where a tile ends, and which one starts there.
#[inline(always)]
pub(crate) fn set_end<A: Allocator>(nodes: &mut Slab<Node, A>, key: usize, end: u64, after: usize)
    requires { ContainsKey nodes.old key }
    ensures updates { Updates nodes.old nodes.new key (option_map (with_end end after) (get nodes.old key)) }
    ensures lists { KeepsLists nodes.old nodes.new }
    ensures len { slab_len nodes.new ≡ slab_len nodes.old }
    ensures capacity { (nodes.new).capacity ≡ (nodes.old).capacity }
{
    let node = &mut nodes[key];
    node.tile.end = end;
    node.after = after;
}

/// Writes which tile ends where this one starts, where `there` says that this one stands.
#[inline(always)]
pub(crate) fn set_before<A: Allocator>(
    nodes: &mut Slab<Node, A>,
    there: bool,
    key: usize,
    value: usize,
)
    ensures sets { SetsBefore nodes.old nodes.new there key value }
    ensures lists { KeepsLists nodes.old nodes.new }
    ensures len { slab_len nodes.new ≡ slab_len nodes.old }
    ensures capacity { (nodes.new).capacity ≡ (nodes.old).capacity }
{
    if there {
        if let Some(node) = nodes.get_mut(key) {
            node.before = value;
        }
    }
}
