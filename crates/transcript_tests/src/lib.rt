//! Tests of transcripts, which call what their crates make public.
//!
//! They stand in a crate of their own, so that the gate proves those crates once, and tests see no more than other crates do.
#![tactic(auto)]

#[cfg(test)]
mod vt100;
#[cfg(test)]
mod xterm;
