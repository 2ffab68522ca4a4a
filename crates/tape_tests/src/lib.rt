//! Tests of recordings and mending, which call what their crates make public.
//!
//! They stand in a crate of their own, so that the gate proves those crates once, and tests see no more than other crates do.
//! What other tests need of them too is public.
#![tactic(auto)]

pub mod devices;
#[cfg(test)]
mod mending;
pub mod once_more;
#[cfg(test)]
mod recording;
