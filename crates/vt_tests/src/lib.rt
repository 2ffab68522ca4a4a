//! Tests of the parser, the screen and the terminal, which call what their crates make public.
//!
//! They stand in a crate of their own, so that the gate proves those crates once, and tests see no more than other crates do.
#![tactic(auto)]

#[cfg(test)]
mod parser;
#[cfg(test)]
mod screen;
#[cfg(test)]
mod terminal;
