//! The jobs over a recording, as calls over readers and writers.
#![tactic(auto)]

mod answers;
mod job;
pub mod laws;
mod player;
mod shared;

pub use job::import::import;
pub use job::mend::{Mending, mend};
pub use job::redact::redact;
pub use job::{Ending, JobFault, Outcome, run, run_on_recording, run_with};
