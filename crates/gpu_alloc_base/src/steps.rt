//! Counters of steps. They take no bytes and do nothing at run time.

ghost use Rattle.std.specs.Prelude.{◌≡◌, ◌+◌};
ghost use Rattle.gpu_alloc_base.specs.Steps.{Begins};

use std::marker::Model;
use std::sync::ledger::{Blank, Book, Ledger, Share};

/// How many steps of one kind were made, for contracts only: the counter takes no bytes. It counts in a ledger of its
/// own, apart from the heaps' ledgers.
#[derive(Drop)]
pub struct Steps<L: Ledger> {
    book: Book<L>,
    share: Share<L>,
}

impl<L: Ledger> Model for Steps<L> {
    ghost use Rattle.std.specs.Prelude.{ℕ, ◌<◌};

    ghost Value = { ℕ };

    ghost view = { λ s. s.book.total };

    ghost invariant = { λ s. 0 < s.share.parts };
}

impl<L: Ledger> Steps<L> {
    /// A counter of no steps, in the ledger that the blank begins: it has that ledger's name and its parts, at least
    /// one. A caller that counts nothing passes one of `Blank::new(1)`, which picks the ledger.
    pub fn new(blank: Blank) -> Self
        requires begins { Begins blank L.name L.parts }
        ensures { result ≡ 0 }
    {
        let (book, share) = blank.open::<L>();
        Steps { book, share }
    }

    /// Counts one step. It is public for the calls that count: a caller passes its counter and the call ticks it.
    pub fn tick(&mut self)
        ensures { self.new ≡ self.old + 1 }
    {
        self.book.add(&mut self.share, 1);
    }
}
