//! What no contract says of these, and that the calls succeed.

mod bench;
mod config;
mod drawn;
mod dump;
mod exact;
mod flags;
mod growths;
mod handles_and_frames;
mod held_only;
mod imports;
mod keys;
mod lists;
mod offers;
mod pieces;
mod report;
mod runs;
mod same;
mod script;
mod sessions;
mod sim;
mod sim_bytes;
mod slots;
mod staging;
mod usage;
mod uses;
