//! Scripts: what they print, and what is left where memory is missing or a reader fails. More are in tests/scripts.

mod asked;
mod ends;
mod lines;
mod lists;
mod memory;
mod openings;
mod questions;
mod scripts;
mod whole;
mod written;
