//! Takes a text out of bytes and of recordings: each byte of an occurrence becomes `*`, and all else stays.
#![tactic(auto)]

mod ahead;
mod hiding;
pub mod laws;
mod recording;

pub use hiding::redact;
pub use recording::{Redaction, can_be_hidden, redact_recording};
