//! Terminal recordings of script(1): a typescript and its timing file, read into a [`Recording`].
#![tactic(auto)]

mod bytes;
mod chunk;
pub mod devices;
pub mod fault;
pub mod laws;
pub mod limits;
mod reading;
mod recording;
mod seconds;
mod seconds_form;
pub mod text;
pub mod timing;
mod writing;

pub use bytes::Bytes;
pub use chunk::Chunk;
pub use devices::{Watched, slurp};
pub use fault::Fault;
pub use reading::{read_recording, read_recording_of};
pub use recording::Recording;
pub use seconds::read_seconds;
pub use seconds_form::{SecondsText, seconds_text};
pub use writing::{give_chunks, write_script, write_timing};
