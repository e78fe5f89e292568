//! A device that is asked from outside. It answers each run of calls from a list of given answers, refuses and reports
//! the first question that has none, and keeps no bytes of its objects.
#![tactic(auto)]

mod device;
mod held;
mod name;
mod objects;
mod properties;
mod question;
mod run;

pub use device::AnsweredDevice;
pub use name::ObjectName;
pub use question::{Answer, Answered, Question};
