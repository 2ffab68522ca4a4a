//! The program around a job: its words, the files that they name, and what it tells its user.
#![tactic(auto)]

mod hints;
mod note;
mod run;
mod running;

pub use run::start;
