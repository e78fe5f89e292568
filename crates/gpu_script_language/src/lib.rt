//! The script language: setup lines that describe a device, and command lines that a session runs over it.
#![tactic(auto)]

mod commands;
mod fields;
mod line;
mod lines;
mod parser;
mod print;
mod run;
mod setup;

pub use line::LineError;
pub use parser::{Script, Stop, parse};
pub use print::print_reply;
pub use run::{SimSession, open, parse_usable, read_all, run_script, write_answer};
pub use setup::{Refusal, Setup};
