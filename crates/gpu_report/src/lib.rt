//! What an allocator holds, object by object, for callers that print or draw it.
#![tactic(auto)]

mod build;
mod desk;
mod error;
mod held;
mod kind;
pub mod laws;
mod live;
mod part;
mod places;
mod report;
mod statistics;
pub mod strips;
mod sums;
mod text;
pub mod uses;
mod writing;

pub use error::ReportError;
pub use live::LiveBlock;
pub use report::{HeapReport, KindReport, ObjectKind, ObjectReport, Place, Report};
pub use statistics::Statistics;
pub use text::write_report;
