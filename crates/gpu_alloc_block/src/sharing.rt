//! How requests share objects.

/// How requests share objects if they are not `TRANSIENT` and not large enough for an object of their own. It is chosen
/// when an allocator is opened. (The original crate has only buddies.)
#[derive(Clone, Copy, Debug, PartialEq, Eq, Hash)]
pub enum Sharing {
    /// In buddy chunks: each block's size is a power of two, in bytes, and the block starts at a multiple of it. An
    /// allocation looks at no more than 63 lengths in each memory type, and a return frees no more than 63 halves.
    Buddy,

    /// In fit chunks: each block is as long as asked, rounded up to a multiple of 256 bytes and of the memory type's
    /// atom. They hold less memory for the same requests.
    Fit,
}
