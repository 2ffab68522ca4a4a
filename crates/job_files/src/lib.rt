//! The files of a command line: what they begin with, new ones that are whole or refused, and how what comes from outside
//! is told.
#![tactic(auto)]

mod beginning;
mod cleaning;
mod devices;
mod files;
mod packing;
mod pair;
mod stop;

pub use beginning::{Beginning, Beginnings, Begun, FirstField, Sources, watched};
pub use cleaning::{cleaned, cleaned_words};
pub use devices::{Outlet, buffered, released};
pub use files::open;
pub use packing::{Packer, Packing};
pub use pair::{New, NewFile, NewPair, create_pair};
pub use stop::FileStop;
