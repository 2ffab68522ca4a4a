//! Tests of sessions over a VT100, which call what `tape_seek` makes public.
#![tactic(auto)]

#[cfg(test)]
mod session;
