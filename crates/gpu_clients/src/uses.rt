//! Callers, each over any device. They are checked without a proof of their own: the contracts of earlier calls give
//! what later calls need. There are three exceptions. A loop's invariant repeats clauses. In `textures` lines say that
//! a returned block is owned, and what the device keeps; what others there say is found without them, but a wrong body
//! is refused sooner. Goals of `two_buffers` and of `image_and_buffer` have proofs too.

pub mod buffers;
pub mod bytes;
pub mod clients;
pub mod first_use;
pub mod free_list;
pub mod imports;
pub mod mapping;
pub mod opening;
pub mod returning;
pub mod session;
pub mod shared;
pub mod textures;
pub mod upload;
