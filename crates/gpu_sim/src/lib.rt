//! A device in host memory, for tests: it refuses what a test plans, and grants everything else for which there is
//! memory and a name. And host memory that runs out where a test says so.
#![tactic(auto)]

mod scarce;
mod sim;

pub use scarce::{HostMemory, ScarceMemory};
pub use sim::{Cause, Question, Sim, SimMemory};
