//! Tests of jobs over devices that fail and allocations that are refused, and over large files, which call what `tape_jobs`
//! makes public.
#![tactic(auto)]

#[cfg(test)]
mod devices;
#[cfg(test)]
mod large;
#[cfg(test)]
mod refused;
