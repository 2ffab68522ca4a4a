//! Terminals to print.

use std::alloc::Global;
use std::test::Fail;
use vt_term::{Profile, Reports, Terminal};

/// A reset VT100 after bytes.
pub(crate) fn fed(alloc: Global, bytes: &[u8]) -> Result<Terminal, Fail> {
    fed_as(alloc, Profile::Vt100, bytes)
}

/// A reset terminal of a profile after bytes.
pub(crate) fn fed_as(alloc: Global, profile: Profile, bytes: &[u8]) -> Result<Terminal, Fail> {
    let mut terminal = Terminal::reset_as(profile);
    terminal.feed(bytes, &mut Reports::new(alloc))?;
    Ok(terminal)
}
