//! The state text for cuts of what a VT100 plays.
ghost use Rattle.std.specs.Prelude.{◌≡◌};

use crate::state_print::state;
use plays::OutOfMemory;
use std::io::Write;
use tape_core::{Fault, Watched};
use tape_cut::StateText;
use tape_seek::Session;
use vt_term::Terminal;

/// Writes the state of a VT100, as `state` does.
pub struct VtState;

impl StateText<Terminal> for VtState {
    ghost use Rattle.screen_state.specs.Remade.{text_after};

    ghost text = { text_after };

    fn go_to(session: &mut Session<Terminal>, count: usize) -> Result<(), OutOfMemory> {
        session.seek_count(count)?;
        Ok(())
    }

    fn put<W: Write>(terminal: &Terminal, writer: &mut Watched<W>) -> Result<(), Fault> {
        state(terminal, writer)
    }

    fn makes_any_this() {}
}
