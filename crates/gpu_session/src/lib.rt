//! Lists of commands over an allocator and its device, with blocks kept by name.
#![tactic(auto)]

mod command;
mod faults;
mod items;
pub mod laws;
mod offer;
mod session;
mod written;

pub use command::{Command, Fault, Reply};
pub use faults::{import_fault, passes_end, request_fault};
pub use items::{Bytes, Items, Ledgers, Ranges};
pub use offer::Offer;
pub use session::{NamedSpan, Session, SessionOpenError};
pub use written::values_of;
