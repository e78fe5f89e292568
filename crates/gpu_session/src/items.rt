//! Lists that commands and replies carry.

ghost use Rattle.std.specs.Prelude.{◌≡◌};

use gpu_alloc::FreeRange;
use std::alloc::{Allocator, Global};
use std::marker::Model;

/// A list of items. Contracts see only the items. It is made from a vector and can become one again.
#[derive(Drop)]
pub struct Items<T: Copy, A: Allocator = Global> {
    items: Vec<T, A>,
}

impl<T: Copy, A: Allocator> Model for Items<T, A> {
    ghost use Rattle.std.specs.Prelude.{List};
    ghost use Rattle.std.specs.Coded.{coded_list};

    ghost Value = { List T };

    ghost coded = { coded_list T.code };

    ghost view = { λ l. l.items.items };
}

impl<T: Copy, A: Allocator> Items<T, A> {
    /// The items of a vector. It allocates nothing.
    pub fn from_vec(items: Vec<T, A>) -> Self
        ensures { result ≡ items.items }
    {
        Items { items }
    }

    /// Turns the list back into a vector. It allocates nothing.
    pub fn into_vec(self) -> Vec<T, A>
        ensures { result.items ≡ self }
    {
        let Items { items } = self;
        items
    }

    /// The items as a slice.
    pub fn as_slice(&self) -> &[T]
        ensures { result.now ≡ self.now }
    {
        self.items.as_slice()
    }
}

/// Bytes, in order.
pub type Bytes<A = Global> = Items<u8, A>;

/// Free ranges, sorted by the name of their object, then by start.
pub type Ranges<A = Global> = Items<FreeRange, A>;

/// A number of bytes for each heap, in heap order: how much of it is held.
pub type Ledgers<A = Global> = Items<u128, A>;
