//! Tests of prints, which call what their crates make public.
//!
//! They stand in a crate of their own, so that the gate proves those crates once, and tests see no more than other crates do.
#![tactic(auto)]

#[cfg(test)]
mod cast;
#[cfg(test)]
mod escaped;
#[cfg(test)]
mod fed;
#[cfg(test)]
mod find;
#[cfg(test)]
mod less;
#[cfg(test)]
mod page;
#[cfg(test)]
mod picture;
#[cfg(test)]
mod plain;
#[cfg(test)]
mod refused;
#[cfg(test)]
mod state;
