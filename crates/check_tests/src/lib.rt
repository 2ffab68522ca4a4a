//! Tests of `check`, which call what `tape_check` makes public.
#![tactic(auto)]

#[cfg(test)]
mod check;
