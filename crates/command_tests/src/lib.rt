//! Tests of the words of command lines, which call what `command_line` makes public.
#![tactic(auto)]

#[cfg(test)]
mod words;
