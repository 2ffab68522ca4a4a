//! What DECSC saves.
use crate::{CharacterSet, Slot};
use sheet::Rendition;

/// What DECSC saved: the cursor's line and column and the pending wrap, the rendition, G0, G1 and which of them is
/// invoked, and DECOM.
#[derive(Clone, Copy, Debug, PartialEq, Eq)]
pub struct Saved {
    pub line: u16,
    pub column: u16,
    pub wrap: bool,
    pub rendition: Rendition,
    pub g0: CharacterSet,
    pub g1: CharacterSet,
    pub invoked: Slot,
    pub origin: bool,
}
