//! A pair of halves, as it is stored.

ghost use Rattle.std.specs.Prelude.{◌≡◌, ◌≤◌, ◌<◌, ◌+◌, ◌^◌, ◌↔◌, ℕ, IsTrue, Some};
ghost use Rattle.gpu_alloc_pairs.specs.Blocks.{HasBlock, IsBlockHalf};
ghost use Rattle.gpu_alloc_pairs.specs.Entry.{entry_of, half_start, taken_as, use_of, with_use};
ghost use Rattle.gpu_alloc_pairs.specs.Links.{free_side};
ghost use Rattle.gpu_alloc_pairs.specs.Pieces.{IsFreeHalfOf};

use gpu_alloc_base::Piece;

/// A half of a pair.
#[derive(Clone, Copy, PartialEq, Eq)]
pub enum Side {
    Left,
    Right,
}

/// What a half is used for. Of a pair's two halves at most one is free.
#[derive(Clone, Copy)]
pub enum Use {
    /// Nothing.
    Free,

    /// A live block.
    Taken,

    /// The parent of a pair one length down.
    Divided,
}

/// The half that a pair divides: a half of a pair one length up.
#[derive(Clone, Copy)]
pub struct Parent {
    /// The key of its pair.
    pub key: usize,

    /// Which half of that pair it is.
    pub side: Side,
}

/// Whether a half of a pair is free, and if so the pair's place in the ring of ready pairs of its length.
#[derive(Clone, Copy)]
pub enum State {
    /// No half is free.
    Exhausted,

    /// One half is free.
    Ready {
        /// The free half.
        side: Side,

        /// The key of the next ready pair.
        next: usize,

        /// The key of the ready pair before.
        prev: usize,
    },
}

impl State {
    /// Whether this half is free.
    #[inline(always)]
    fn frees(&self, side: Side) -> bool
        ensures { IsTrue result ↔ free_side self.now ≡ Some side }
    {
        match self {
            State::Exhausted => false,
            State::Ready { side: free, .. } => *free == side,
        }
    }
}

/// Two halves of a range of a chunk.
#[derive(Clone, Copy)]
pub struct Pair {
    /// The key of the chunk.
    pub chunk: usize,

    /// Where the left half starts in the chunk, in bytes.
    pub offset: u64,

    /// The half that the pair divides, or `None` where the pair is its whole chunk.
    pub parent: Option<Parent>,

    /// Whether a pair divides the left half. Meaningless while that half is free.
    pub left_divided: bool,

    /// The same for the right half.
    pub right_divided: bool,

    /// Which half is free, if one is.
    pub state: State,
}

impl Pair {
    /// Takes the free half, to be divided by a pair or as a live block. No half is then free.
    #[inline(always)]
    pub fn exhaust(&mut self, side: Side, divided: bool)
        requires free { free_side (self.old).state ≡ Some side }
        ensures exhausted { (self.new).state ≡ State.Exhausted }
        ensures entry { entry_of self.new ≡ with_use (entry_of self.old) side (taken_as divided) }
    {
        self.state = State::Exhausted;
        match side {
            Side::Left => self.left_divided = divided,
            Side::Right => self.right_divided = divided,
        }
    }

    /// The free half, if there is one, as a piece of 2^order bytes.
    #[inline(always)]
    pub fn free_piece(&self, order: u32) -> Option<Piece>
        requires short { order ≤ 62 }
        requires bounded { (self.now).offset + 2 ^ order < 2 ^ 64 }
        ensures { IsFreeHalfOf order (entry_of self.now) result }
    {
        let State::Ready { side, .. } = self.state else {
            return None;
        };
        Some(Piece {
            chunk: self.chunk,
            start: self.start_of(side, order),
            order,
        })
    }

    /// Whether a half of 2^order bytes that starts at `start` in the chunk, in bytes, is a live block.
    #[inline(always)]
    pub fn has_block(&self, order: u32, start: u64) -> bool
        requires short { order ≤ 62 }
        requires bounded { (self.now).offset + 2 ^ order < 2 ^ 64 }
        ensures { IsTrue result ↔ HasBlock order (entry_of self.now) start }
    {
        self.is_block(Side::Left, order, start) || self.is_block(Side::Right, order, start)
    }

    /// Whether this half, of 2^order bytes, is a live block and starts at `start`.
    #[inline(always)]
    fn is_block(&self, side: Side, order: u32, start: u64) -> bool
        requires short { order ≤ 62 }
        requires bounded { (self.now).offset + 2 ^ order < 2 ^ 64 }
        ensures { IsTrue result ↔ IsBlockHalf order (entry_of self.now) start side }
    {
        match self.use_of(side) {
            Use::Taken => self.start_of(side, order) == start,
            Use::Free | Use::Divided => false,
        }
    }

    /// What a half is used for.
    #[inline(always)]
    pub fn use_of(&self, side: Side) -> Use
        ensures { result ≡ use_of (entry_of self.now) side }
    {
        let divided = match side {
            Side::Left => self.left_divided,
            Side::Right => self.right_divided,
        };
        if self.state.frees(side) {
            Use::Free
        } else if divided {
            Use::Divided
        } else {
            Use::Taken
        }
    }

    /// Where a half of 2^order bytes starts in the chunk, in bytes.
    #[inline(always)]
    pub fn start_of(&self, side: Side, order: u32) -> u64
        requires short { order ≤ 62 }
        requires bounded { (self.now).offset + 2 ^ order < 2 ^ 64 }
        ensures { result ≡ half_start (2 ^ order) (self.now).offset side }
    {
        match side {
            Side::Left => self.offset,
            Side::Right => self.offset + (1 << order),
        }
    }
}
