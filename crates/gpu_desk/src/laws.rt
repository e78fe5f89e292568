//! Laws of any calls of a desk, over the definitions alone. The functions are lemmas: they do nothing at run time.

ghost use Rattle.std.specs.Prelude.{◌⊎◌, ℕ, List, All, Contains, IsSome};
ghost use Rattle.gpu_alloc.specs.Request.{IsGranularity};
ghost use Rattle.gpu_session.specs.Sound as session;
ghost use Rattle.gpu_desk.specs.Desk.{DeskState, IsSoundDesk, books, objects};
ghost use Rattle.gpu_desk.specs.Names.{FollowsReading, IsPastName, IsSpentName, MakesEver, NamesNothing, Waits};
ghost use Rattle.gpu_desk.specs.Names.{last_after, read_in};
ghost use Rattle.gpu_desk.specs.Pages.{ArePaged, ShareNoPage};
ghost use Rattle.gpu_desk.specs.Walk.{ComesOnce, IsLiveKey, NeverComes, WalksAll};

/// However calls follow one another, no name comes twice. The name of a released object is past: it waits to be read,
/// and no object and no live block has it, then or later. Once it is read ([`Desk::next_gone`]) it is spent, and
/// never waits again.
///
/// [`Desk::next_gone`]: crate::Desk::next_gone
pub fn no_name_comes_twice()
    ensures waiting { (s : DeskState) → IsSoundDesk s → (name : ℕ) → Waits s name → IsPastName s name }
    ensures nothing { MakesEver IsPastName NamesNothing }
    ensures once { MakesEver IsSpentName (λ s name. Waits s name → ⊥) }
{}

/// However calls follow one another, no object is lost. One that is held at first, or whose name waits to be read then,
/// is held in the end, or its name waits, or it was read on the way.
pub fn no_object_is_lost()
    ensures { (first : DeskState) (calls : List (List ℕ × DeskState)) → FollowsReading first calls → (name : ℕ)
        → IsSome (objects first name) ⊎ Waits first name
        → (IsSome (objects (last_after first calls) name) ⊎ Waits (last_after first calls) name)
        ⊎ Contains (read_in calls) name }
{}

/// A whole walk by [`Desk::block_after`] meets each block that lives all along exactly once, and no block that is live
/// at none of its calls, whatever calls are made in between. So where nothing changes meanwhile, it meets exactly the
/// live blocks.
///
/// [`Desk::block_after`]: crate::Desk::block_after
pub fn a_walk_meets_each_block_once()
    ensures once { (states : List DeskState) (keys : List ℕ) → WalksAll states keys → (key : ℕ)
        → All (IsLiveKey key) states → ComesOnce keys key }
    ensures never { (states : List DeskState) (keys : List ℕ) → WalksAll states keys → (key : ℕ)
        → All (λ s. IsLiveKey key s → ⊥) states → NeverComes keys key }
{}

/// No page of an object holds both a requested byte of a block for an optimal resource and a byte of a block for a
/// linear one. This follows where blocks share no memory and each block for an optimal resource has its object alone,
/// or begins at a page and has whole pages for the requested bytes. Every desk keeps this so
/// ([`Desk::keeps_sound`](crate::Desk::keeps_sound)).
pub fn whole_pages_are_not_shared()
    ensures { (s : DeskState) → session.IsSoundSession s.device.properties (objects s) (books s) → IsGranularity s.granularity
        → ArePaged s.blocks.live s.tags s.granularity → ShareNoPage s.blocks.live s.tags s.granularity }
{}
