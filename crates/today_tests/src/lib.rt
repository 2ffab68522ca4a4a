//! Tests of what is drawn of the terminal of today, which call what their crates make public.
//!
//! They stand in a crate of their own, so that the gate proves those crates once, and tests see no more than other crates do.
#![tactic(auto)]

#[cfg(test)]
mod change_lines;
#[cfg(test)]
mod colours;
#[cfg(test)]
mod escaped;
#[cfg(test)]
mod files;
#[cfg(test)]
mod finds;
#[cfg(test)]
mod pages;
#[cfg(test)]
mod pictures;
#[cfg(test)]
mod refused;
#[cfg(test)]
mod state;
