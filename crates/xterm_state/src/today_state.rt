//! The state text for cuts of what a terminal of today plays.
ghost use Rattle.std.specs.Prelude.{◌≡◌};

use crate::laws::state_text_makes_any_this;
use crate::state_print::state;
use plays::OutOfMemory;
use std::io::Write;
use tape_core::{Fault, Watched};
use tape_cut::StateText;
use tape_seek::Session;
use xterm_print::seek_count;
use xterm_term::Terminal;
use xterm_term::laws::{seen_decides, size_stays};

/// Writes the state of a terminal of today, as `state` does.
pub struct TodayState;

impl StateText<Terminal> for TodayState {
    ghost use Rattle.xterm_state.specs.Remade.{text_after};

    ghost text = { λ size. text_after size.columns size.lines };

    fn go_to(session: &mut Session<Terminal>, count: usize) -> Result<(), OutOfMemory> {
        seek_count(session, count)?;
        Ok(())
    }

    fn put<W: Write>(terminal: &Terminal, writer: &mut Watched<W>) -> Result<(), Fault> {
        state(terminal, writer)
    }

    fn makes_any_this() {
        seen_decides();
        size_stays();
        state_text_makes_any_this();
    }
}
