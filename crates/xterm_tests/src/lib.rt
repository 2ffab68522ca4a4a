//! Tests of the terminal of today, which call what its crates make public.
//!
//! They stand in a crate of their own, so that the gate proves those crates once, and tests see no more than other
//! crates do.
#![tactic(auto)]

#[cfg(test)]
mod between;
#[cfg(test)]
mod bytes;
#[cfg(test)]
mod changes;
#[cfg(test)]
mod erased;
#[cfg(test)]
mod foot;
#[cfg(test)]
mod letter_runs;
#[cfg(test)]
mod letters;
#[cfg(test)]
mod moved;
#[cfg(test)]
mod nothing;
#[cfg(test)]
mod packed;
#[cfg(test)]
mod refused;
#[cfg(test)]
mod renditions;
#[cfg(test)]
mod rows;
#[cfg(test)]
mod sheets;
#[cfg(test)]
mod shown_letters;
#[cfg(test)]
mod starts;
#[cfg(test)]
mod stream;
#[cfg(test)]
mod told;
#[cfg(test)]
mod touched;
#[cfg(test)]
mod whole;
#[cfg(test)]
mod widths;
#[cfg(test)]
mod wraps;
