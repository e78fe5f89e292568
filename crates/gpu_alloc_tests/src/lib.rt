//! Tests of what no contract says: the flag types, configurations as text, rankings, the allocators of shared chunks by
//! themselves, drawn sessions, reports, clients, the simulated device, and scripts. They are in a crate of their own,
//! since a crate with tests is proved twice.
#![tactic(auto)]

#[cfg(test)]
mod tests;
