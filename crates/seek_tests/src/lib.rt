//! Tests of sessions over a terminal that is no VT100: a strip of cells, which meets `Plays` as a VT100 does.
//!
//! They stand in a crate of their own, so that the gate proves `tape_seek` once, and the strip sees no more of it than
//! other crates do.
#![tactic(auto)]

pub mod client;
pub mod lines;
#[cfg(test)]
mod sessions;
pub mod strip;
