//! Tests of jobs over readers and writers in memory, which call what `tape_jobs` makes public.
//!
//! They stand in a crate of their own, so that the gate proves the program once, and tests see no more than other crates do.
//! What the tests of devices need of them too is public.
#![tactic(auto)]

#[cfg(test)]
mod alone;
#[cfg(test)]
mod cast;
#[cfg(test)]
mod check;
#[cfg(test)]
mod comparison;
#[cfg(test)]
mod cuts;
#[cfg(test)]
mod find;
#[cfg(test)]
mod importing;
pub mod in_memory;
#[cfg(test)]
mod jobs;
#[cfg(test)]
mod mending;
#[cfg(test)]
mod moments;
#[cfg(test)]
mod page;
#[cfg(test)]
mod picture;
#[cfg(test)]
mod redact;
#[cfg(test)]
mod run;
#[cfg(test)]
mod session;
#[cfg(test)]
mod state;
#[cfg(test)]
mod texts;
