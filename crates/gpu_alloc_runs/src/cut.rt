//! How a live tile is cut out of a free one.

ghost use Rattle.std.specs.Prelude.{◌≡◌, ◌≤◌, ◌<◌, ◌+◌, ℕ, Some, false, true};
ghost use Rattle.slab.specs.Slab.{HasRoomFor, slab_len};
ghost use Rattle.gpu_alloc_runs.specs.Filed.{AreFreeFiled, KeepsEnds};
ghost use Rattle.gpu_alloc_runs.specs.Inside.{chunk_size_in};
ghost use Rattle.gpu_alloc_runs.specs.Links.{AreNodesKept};
ghost use Rattle.gpu_alloc_runs.specs.Tiles.{HasNoLiveTile, IsFreeRight, IsLiveAt, KeepsElsewhere, KeepsOthers, tile_in};

use crate::classes::{Classes, class_of, file, refile, unfile};
use crate::fits::Chunk;
use crate::tile::{Node, Tile, add, bytes_of, set_before, set_end, set_free, unlisted};
use gpu_alloc_types::MemoryObject;
use slab::Slab;
use std::alloc::Allocator;

/// Turns bytes of a free tile into a live tile, and returns its key. What the tile has before and after them stays
/// free. Room for two tiles was made.
#[inline(always)]
pub(crate) fn cut_out<M: MemoryObject, A: Allocator>(
    nodes: &mut Slab<Node, A>,
    classes: &mut Classes,
    chunks: &Slab<Chunk<M>, A>,
    key: usize,
    run: Tile,
    start: u64,
    end: u64,
) -> usize
    requires kept { AreNodesKept (chunk_size_in chunks.now) nodes.old }
    requires filed { AreFreeFiled nodes.old classes.old }
    requires run { (tile_in nodes.old key ≡ Some run) × (run.free ≡ true) }
    requires nonempty { start < end }
    requires inside { (run.start ≤ start) × (end ≤ run.end) }
    requires room { HasRoomFor nodes.old 2 }
    ensures kept { AreNodesKept (chunk_size_in chunks.now) nodes.new }
    ensures filed { AreFreeFiled nodes.new classes.new }
    ensures live { IsLiveAt (tile_in nodes.new) result
        (record { chunk = run.chunk; start = start; end = end; free = false }) }
    ensures added { HasNoLiveTile (tile_in nodes.old) result }
    ensures others { KeepsOthers (tile_in nodes.old) (tile_in nodes.new) result }
    ensures elsewhere { KeepsElsewhere run.chunk (tile_in nodes.old) (tile_in nodes.new) }
    ensures ends { KeepsEnds run.chunk nodes.old nodes.new }
{
    let block = cut_end(nodes, classes, chunks, key, run, start);
    let rest = Tile {
        chunk: run.chunk,
        start,
        end: run.end,
        free: false,
    };
    cut_back(nodes, classes, chunks, block, rest, end);
    block
}

/// Turns the bytes of a free tile from `at` on into a live tile, and returns its key. The front, if it has bytes, stays
/// free under the old key.
#[inline(always)]
fn cut_end<M: MemoryObject, A: Allocator>(
    nodes: &mut Slab<Node, A>,
    classes: &mut Classes,
    chunks: &Slab<Chunk<M>, A>,
    key: usize,
    run: Tile,
    at: u64,
) -> usize
    requires kept { AreNodesKept (chunk_size_in chunks.now) nodes.old }
    requires filed { AreFreeFiled nodes.old classes.old }
    requires run { (tile_in nodes.old key ≡ Some run) × (run.free ≡ true) }
    requires within { (run.start ≤ at) × (at < run.end) }
    requires room { HasRoomFor nodes.old 1 }
    ensures kept { AreNodesKept (chunk_size_in chunks.now) nodes.new }
    ensures filed { AreFreeFiled nodes.new classes.new }
    ensures right { IsFreeRight result (tile_in nodes.new) }
    ensures live { IsLiveAt (tile_in nodes.new) result
        (record { chunk = run.chunk; start = at; end = run.end; free = false }) }
    ensures added { HasNoLiveTile (tile_in nodes.old) result }
    ensures others { KeepsOthers (tile_in nodes.old) (tile_in nodes.new) result }
    ensures elsewhere { KeepsElsewhere run.chunk (tile_in nodes.old) (tile_in nodes.new) }
    ensures ends { KeepsEnds run.chunk nodes.old nodes.new }
    ensures len { slab_len nodes.new ≤ slab_len nodes.old + 1 }
    ensures capacity { (nodes.new).capacity ≡ (nodes.old).capacity }
{
    let was = class_of(bytes_of(run));
    if at == run.start {
        unfile(nodes, classes, key, was);
        set_free(nodes, key, false);
        return key;
    }
    let whole = chunks[run.chunk].size;
    let after = nodes[key].after;
    let live = Tile {
        chunk: run.chunk,
        start: at,
        end: run.end,
        free: false,
    };
    let block = add(nodes, unlisted(live, key, after));
    set_end(nodes, key, at, block);
    set_before(nodes, run.end < whole, after, block);
    refile(nodes, classes, key, Some(was), class_of(at - run.start));
    block
}

/// Frees the back of a live tile, from `at` on, if it has bytes there.
#[inline(always)]
fn cut_back<M: MemoryObject, A: Allocator>(
    nodes: &mut Slab<Node, A>,
    classes: &mut Classes,
    chunks: &Slab<Chunk<M>, A>,
    key: usize,
    tile: Tile,
    at: u64,
)
    requires kept { AreNodesKept (chunk_size_in chunks.now) nodes.old }
    requires filed { AreFreeFiled nodes.old classes.old }
    requires live { IsLiveAt (tile_in nodes.old) key tile }
    requires within { (tile.start < at) × (at ≤ tile.end) }
    requires right { IsFreeRight key (tile_in nodes.old) }
    requires room { HasRoomFor nodes.old 1 }
    ensures kept { AreNodesKept (chunk_size_in chunks.now) nodes.new }
    ensures filed { AreFreeFiled nodes.new classes.new }
    ensures live { IsLiveAt (tile_in nodes.new) key (record tile { end = at }) }
    ensures others { KeepsOthers (tile_in nodes.old) (tile_in nodes.new) key }
    ensures elsewhere { KeepsElsewhere tile.chunk (tile_in nodes.old) (tile_in nodes.new) }
    ensures ends { KeepsEnds tile.chunk nodes.old nodes.new }
{
    if at == tile.end {
        return;
    }
    let whole = chunks[tile.chunk].size;
    let after = nodes[key].after;
    let free = Tile {
        chunk: tile.chunk,
        start: at,
        end: tile.end,
        free: true,
    };
    let back = add(nodes, unlisted(free, key, after));
    set_end(nodes, key, at, back);
    set_before(nodes, tile.end < whole, after, back);
    file(nodes, classes, back, class_of(tile.end - at));
}
