//! Recordings of other makers: read as far as they can be, as a recording of script(1), and what was lost is told.
#![tactic(auto)]

mod asciicast;
mod asciicast_one;
mod cast_header;
mod date;
mod entry;
mod event;
mod facts;
mod fault;
pub mod form;
mod header;
mod imported;
mod imported_cast;
mod imported_file;
mod imported_one;
pub mod laws;
mod lines;
mod losses;
mod places;
mod refusal;
mod timeline;
mod tlog;
mod tlog_fields;
mod tlog_import;
mod tlog_message;
mod tlog_stream;
mod tlog_timing;
mod ttyrec;
mod version;

pub use facts::{Facts, Size};
pub use fault::{EventFault, ImportFault};
pub use imported::{Imported, import_ttyrec};
pub use imported_cast::import_asciicast;
pub use imported_file::import;
pub use imported_one::import_asciicast_one;
pub use losses::{At, Cut, Late, Left, Losses, Others, Place, put_losses};
pub use refusal::{Refusal, Whole, import_whole};
pub use tlog_import::import_tlog;
pub use version::Version;
