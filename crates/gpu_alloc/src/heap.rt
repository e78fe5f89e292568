//! A heap's size, its limit, and the running ledger of what is held of it.

pub use gpu_alloc_base::heap::Heap;
