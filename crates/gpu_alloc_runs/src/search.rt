//! How a free tile with room is found: through the lists of free tiles by classes.

ghost use Rattle.std.specs.Prelude.{◌≡◌, ◌+◌, ◌≤◌, ◌<◌, IsSome, MatchOption, true, false};
ghost use Rattle.gpu_alloc_base.specs.AlignMasks.{IsAlignMask};
ghost use Rattle.gpu_alloc_base.specs.FreeRuns.{tail_start};
ghost use Rattle.gpu_alloc_runs.specs.Filed.{AreFreeFiled, AreWholeLast};
ghost use Rattle.gpu_alloc_runs.specs.Inside.{IsChosenTile, chunk_size_in, chunks_of_rows, fit_space_in};
ghost use Rattle.gpu_alloc_runs.specs.Links.{AreNodesKept};
ghost use Rattle.gpu_alloc_runs.specs.Space.{HasPlace, LooksAtFew};
ghost use Rattle.gpu_alloc_runs.specs.Tiles.{HasRoomIn, tile_in};

use crate::classes::{Classes, class_of};
use crate::fits::Chunk;
use crate::tile::{NONE, Node, Tile, look};
use gpu_alloc_base::steps::Steps;
use gpu_alloc_types::MemoryObject;
use slab::Slab;
use std::alloc::Allocator;
use std::sync::ledger::Ledger;

/// How many free tiles that lack room are passed while a sure class has tiles. After them the first of these is taken.
const LOOKS: usize = 4;

/// Where a block of this size starts that ends with its tile, or as little before the end as its alignment requires.
#[inline(always)]
pub(crate) fn last_start(end: u64, size: u64, align_mask: u64) -> u64
    requires alignment { IsAlignMask align_mask }
    requires enough { size ≤ end }
    ensures { result ≡ tail_start size (align_mask + 1) end }
{
    let last = end - size;
    last - (last & align_mask)
}

/// Whether a tile is free and has room for a block of this size at a multiple of `align_mask + 1`.
#[inline(always)]
fn has_room(tile: Tile, size: u64, align_mask: u64) -> bool
    requires { IsAlignMask align_mask }
    ensures yes { result ≡ true → HasRoomIn size (align_mask + 1) tile }
    ensures no { result ≡ false → HasRoomIn size (align_mask + 1) tile → ⊥ }
{
    tile.free && size <= tile.end && tile.start <= last_start(tile.end, size, align_mask)
}

/// The free tile from which a block of this size at a multiple of `align_mask + 1`, in bytes, is taken, with its key,
/// or `None` exactly where no held chunk has a place for it. `looks` counts the free tiles that are looked at.
///
/// They are looked at class by class, from the class of the size on, until one has room. From the first sure class on
/// each has. Once `LOOKS` tiles lack it, the first tile of the sure classes is taken, if they have one.
#[inline(always)]
pub(crate) fn find_place<M: MemoryObject, A: Allocator, L: Ledger>(
    chunks: &Slab<Chunk<M>, A>,
    nodes: &Slab<Node, A>,
    classes: &Classes,
    size: u64,
    align_mask: u64,
    looks: &mut Steps<L>,
) -> Option<(usize, Tile)>
    requires nonempty { 0 < size }
    requires alignment { IsAlignMask align_mask }
    requires kept { AreNodesKept (chunk_size_in chunks.now) nodes.now }
    requires filed { AreFreeFiled nodes.now classes.now }
    requires whole_last { AreWholeLast (chunk_size_in chunks.now) nodes.now }
    ensures place { MatchOption result
        (HasPlace (fit_space_in (chunks_of_rows M.object chunks.now) nodes.now) size (align_mask + 1) → ⊥)
        (IsChosenTile (fit_space_in (chunks_of_rows M.object chunks.now) nodes.now) (tile_in nodes.now) size
        (align_mask + 1)) }
    ensures looks { LooksAtFew (fit_space_in (chunks_of_rows M.object chunks.now) nodes.now) size (align_mask + 1)
        looks.old looks.new }
    ensures some { IsSome result → looks.old < looks.new }
{
    let mut class = classes.filled_from(class_of(size));
    let mut key = classes.first(class);
    // From this class on each tile has room, wherever it starts.
    let sure = class_of((size - 1).saturating_add(align_mask)) + 1;
    for passed in 0..nodes.len() {
        if class >= sure {
            if key == NONE {
                return None;
            }
            return Some((key, look(nodes, key, looks).tile));
        }
        if passed == LOOKS {
            let first = classes.first(classes.filled_from(sure));
            if first != NONE {
                return Some((first, look(nodes, first, looks).tile));
            }
        }
        let node = look(nodes, key, looks);
        if has_room(node.tile, size, align_mask) {
            return Some((key, node.tile));
        }
        key = node.down;
        if key == NONE {
            class = classes.filled_from(class + 1);
            key = classes.first(class);
        }
    }
    None
}
