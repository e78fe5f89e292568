//! Laws of any calls, over the definitions alone. The functions are lemmas: they do nothing at run time.

ghost use Rattle.std.specs.Prelude.{ℕ, List, All};
ghost use Rattle.gpu_desk.specs.Desk.{DeskState};
ghost use Rattle.gpu_desk.specs.Walk.{ComesOnce, IsLiveKey, NeverComes};
ghost use Rattle.wallthyme.specs.Walk.{Page, WalksInPages, keys_in, states_in};

use gpu_desk::laws::a_walk_meets_each_block_once;

/// A whole walk by `wt_blocks` starts from 0, and each call goes on with the last key of the one before. It writes each
/// block that lives all along exactly once, and no block that is live at none of its calls, whatever calls are made
/// in between. So where nothing changes meanwhile, it writes exactly the live blocks.
pub fn a_walk_in_pages_tells_each_block_once()
    ensures once { (pages : List Page) (last : DeskState) → WalksInPages 0 pages last → (key : ℕ)
        → All (IsLiveKey key) (states_in pages last) → ComesOnce (keys_in pages) key }
    ensures never { (pages : List Page) (last : DeskState) → WalksInPages 0 pages last → (key : ℕ)
        → All (λ s. IsLiveKey key s → ⊥) (states_in pages last) → NeverComes (keys_in pages) key }
{
    a_walk_meets_each_block_once();
}
