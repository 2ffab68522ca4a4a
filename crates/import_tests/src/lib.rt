//! Tests of recordings of other makers, which call what `tape_import` makes public.
#![tactic(auto)]

#[cfg(test)]
mod asciicast_ones;
#[cfg(test)]
mod asciicasts;
#[cfg(test)]
mod comparison;
#[cfg(test)]
mod files;
#[cfg(test)]
mod forms;
#[cfg(test)]
mod tlogs;
#[cfg(test)]
mod told;
#[cfg(test)]
mod ttyrecs;
